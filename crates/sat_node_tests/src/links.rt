//! Links on one thread and on two.
ghost use Rattle.std.specs.Prelude.{◌≡◌};

use sat_link::{LinkIn, LinkOut, compare, finish, link};
use std::sync::Wait;
use std::test::*;
use std::thread;

// An end that is told nothing goes on after it was full, and after it was empty.
#[test]
fn full_and_empty_untold(rt: HostRuntime) -> Result<(), Fail> {
    let (mut input, mut output) = link::<u32>(rt.alloc(), 1)?;
    for round in 0..3 {
        assert_eq!(rt; input.push(&rt, round), Ok(()));
        assert_eq!(rt; input.push(&rt, 9), Err(9));
        assert_eq!(rt; output.pop(&rt), Some(round));
        assert_eq!(rt; output.pop(&rt), None);
    }
    Ok(())
}

#[test]
fn two_and_one_back(rt: HostRuntime) -> Result<(), Fail> {
    let (mut input, mut output) = link::<u32>(rt.alloc(), 2)?;
    assert_eq!(rt; input.push(&rt, 1), Ok(()));
    assert_eq!(rt; input.push(&rt, 2), Ok(()));
    assert_eq!(rt; input.push(&rt, 3), Err(3));
    assert_eq!(rt; output.pop(&rt), Some(1));
    let mut rest = finish(input, output);
    assert_eq!(rt; rest.next(&rt), Some(2));
    assert_eq!(rt; rest.next(&rt), None);
    assert_eq!(rt; rest.next(&rt), None);
    Ok(())
}

fn send_all<R: Wait>(rt: &R, mut input: LinkIn<u32>, count: u32) -> LinkIn<u32>
    ensures { result.wire ≡ input.wire }
{
    let mut next = 0;
    for _ in rt.forever() {
        if next >= count {
            break;
        }
        match input.push(rt, next) {
            Ok(()) => next += 1,
            Err(_) => thread::yield_now(),
        }
    }
    input
}

// Whether the messages below `count` come in their order.
fn receive_all<R: Wait>(rt: &R, mut output: LinkOut<u32>, count: u32) -> (LinkOut<u32>, bool)
    ensures { result.0.wire ≡ output.wire }
{
    let mut next = 0;
    for _ in rt.forever() {
        if next >= count {
            break;
        }
        match output.pop(rt) {
            Some(message) if message == next => next += 1,
            Some(_) => return (output, false),
            None => thread::yield_now(),
        }
    }
    (output, true)
}

#[test]
fn a_thousand_through_two_threads(rt: HostRuntime) -> Result<(), Fail> {
    let (input, output) = link::<u32>(rt.alloc(), 2)?;
    let (input, (output, good)) = thread::join(
        &rt,
        move || -> LinkIn<u32>
            ensures { result.wire ≡ input.wire }
        { send_all(&rt, input, 1000) },
        move || -> (LinkOut<u32>, bool)
            ensures { result.0.wire ≡ output.wire }
        { receive_all(&rt, output, 1000) },
    );
    assert!(rt; good);
    let mut rest = finish(input, output);
    assert_eq!(rt; rest.next(&rt), None);
    Ok(())
}

#[test]
fn acknowledged(rt: HostRuntime) -> Result<(), Fail> {
    let (mut input, mut output) = link::<u32>(rt.alloc(), 2)?;
    assert_eq!(rt; input.push(&rt, 1), Ok(()));
    assert_eq!(rt; input.push(&rt, 2), Ok(()));
    assert_eq!(rt; input.push(&rt, 3), Err(3));
    assert_eq!(rt; output.pop(&rt), Some(1));
    input.read(output.acknowledge());
    assert_eq!(rt; input.push(&rt, 3), Ok(()));
    assert_eq!(rt; output.pop(&rt), Some(2));
    assert_eq!(rt; output.pop(&rt), Some(3));
    assert_eq!(rt; output.pop(&rt), None);
    Ok(())
}

#[test]
fn notes(rt: HostRuntime) -> Result<(), Fail> {
    let (mut input, mut output) = link::<u32>(rt.alloc(), 2)?;
    assert_eq!(rt; output.pop(&rt), None);
    assert_eq!(rt; input.push(&rt, 7), Ok(()));
    output.read(input.note());
    compare(&mut input, &mut output);
    assert_eq!(rt; output.pop(&rt), Some(7));
    assert_eq!(rt; output.pop(&rt), None);
    compare(&mut input, &mut output);
    assert_eq!(rt; finish(input, output).next(&rt), None);
    Ok(())
}
