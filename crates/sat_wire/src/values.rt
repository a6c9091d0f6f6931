//! Values of items.
ghost use Rattle.std.specs.Prelude.{◌≡◌, ◌+◌, ◌≤◌, ◌++◌, true, length};
ghost use Rattle.sat_wire.specs.Bounds.{small258, small259};
ghost use Rattle.sat_wire.specs.Code.{optional};
ghost use Rattle.sat_wire.specs.Exact.{exact_optional};
ghost use Rattle.sat_wire.specs.Texts.{exact_value, value};

use crate::Wire;
use crate::fault::{Cause, ReadFault, Stop};
use crate::numbers::put;
use crate::options::{option_size, read_option, write_option};
use sat_label::Value;
use std::alloc::Global;

impl Wire for Value {
    ghost code = { value };

    ghost allows = { λ x. true };

    ghost exact = { exact_value };

    ghost small = { small258 };

    fn is_allowed(&self) -> bool {
        true
    }

    #[tactic(auto, using(crate::specs::Texts::value_few))]
    fn size(&self) -> usize {
        2 + self.bytes().len()
    }

    #[tactic(auto, using(crate::specs::Texts::value_few))]
    fn write(&self, out: &mut Vec<u8>) {
        let bytes = self.bytes();
        (bytes.len() as u16).write(out);
        put(out, bytes);
    }

    fn read(alloc: Global, bytes: &[u8]) -> Result<(Value, &[u8]), ReadFault> {
        let (count, rest) = u16::read(alloc, bytes)?;
        if rest.len() < count as usize {
            return Err(ReadFault::Stop(Stop {
                cause: Cause::Short,
                left: 0,
            }));
        }
        let (text, rest) = rest.split_at(count as usize);
        match Value::of(alloc, text)? {
            None => Err(ReadFault::Stop(Stop {
                cause: Cause::Value,
                left: bytes.len(),
            })),
            Some(value) => Ok((value, rest)),
        }
    }
}

impl Wire for Option<Value> {
    ghost code = { optional value };

    ghost allows = { λ o. true };

    ghost exact = { exact_optional value exact_value };

    ghost small = { small259 };

    fn is_allowed(&self) -> bool {
        true
    }

    fn size(&self) -> usize {
        option_size(self)
    }

    fn write(&self, out: &mut Vec<u8>) {
        write_option(self, out)
    }

    fn read(alloc: Global, bytes: &[u8]) -> Result<(Option<Value>, &[u8]), ReadFault> {
        read_option(alloc, bytes)
    }
}
