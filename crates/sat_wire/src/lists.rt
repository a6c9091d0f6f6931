//! The members of lists, one behind the other.
ghost use Rattle.std.specs.Prelude.{◌≡◌, ◌+◌, ◌≤◌, ◌++◌, true, length, vec_capacity, Ok, IfOk, IfErr};
ghost use Rattle.std.specs.List.{flat_map};
ghost use Rattle.sat_wire.specs.Code.{all_fit, read_members, AllAllowed, StopsAt};

use crate::{ReadFault, Wire};
use sat_label::List;
use std::alloc::Global;

/// How many bytes the members are written in.
pub fn members_size<T: Wire>(items: &[T]) -> usize
    requires few { length items.now ≤ 65535 }
    requires allowed { AllAllowed T.allows }
    ensures size { result ≡ length (flat_map T.code.spell items.now) }
    ensures fits { all_fit T.code items.now ≡ true }
{
    let mut size = 0;
    let mut rest = items;
    'members: while let Some((first, more)) = rest.split_first() {
        size += first.size();
        rest = more;
    }
    size
}

/// Puts the members' bytes behind others, for which there is room.
pub fn write_members<T: Wire>(items: &[T], out: &mut Vec<u8>)
    requires fits { all_fit T.code items.now ≡ true }
    requires room { length out.old.items + length (flat_map T.code.spell items.now) ≤ vec_capacity out.old }
    ensures items { out.new.items ≡ out.old.items ++ flat_map T.code.spell items.now }
    ensures capacity { vec_capacity out.old ≤ vec_capacity out.new }
{
    let mut rest = items;
    'members: while let Some((first, more)) = rest.split_first() {
        first.write(out);
        rest = more;
    }
}

/// So many members from the front of bytes, and the bytes behind them.
#[tactic(auto, using(crate::proofs::Members::front_none, crate::proofs::Members::members_more, crate::proofs::Members::members_stopped, crate::proofs::Members::members_all))]
pub fn read_members<T: Wire>(
    alloc: Global,
    count: u16,
    bytes: &[u8],
) -> Result<(Vec<T>, &[u8]), ReadFault>
    ensures ok { IfOk result (λ found. read_members T.code count bytes.now ≡ Ok (found.0.items, found.1.now)) }
    ensures err { IfErr result (λ fault. StopsAt fault (read_members T.code count bytes.now)) }
{
    let mut items = Vec::new(alloc);
    let mut rest = bytes;
    'members: for number in 0..count {
        let (item, behind) = T::read(alloc, rest)?;
        items.push(item)?;
        rest = behind;
    }
    Ok((items, rest))
}

/// So many members from the front of bytes as a small list, and the bytes behind them.
#[tactic(auto, using(crate::proofs::Members::front_none, crate::proofs::Members::members_more, crate::proofs::Members::members_stopped, crate::proofs::Members::members_all))]
pub fn read_list<T: Wire + Copy>(
    alloc: Global,
    count: u16,
    bytes: &[u8],
) -> Result<(List<T>, &[u8]), ReadFault>
    ensures ok { IfOk result (λ found. read_members T.code count bytes.now ≡ Ok (found.0, found.1.now)) }
    ensures err { IfErr result (λ fault. StopsAt fault (read_members T.code count bytes.now)) }
{
    let mut items = List::new(alloc);
    let mut rest = bytes;
    'members: for number in 0..count {
        let (item, behind) = T::read(alloc, rest)?;
        items.push(item)?;
        rest = behind;
    }
    Ok((items, rest))
}
