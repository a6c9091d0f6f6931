//! The calls of a gear that the program does not make.
ghost use Rattle.std.specs.Prelude.{◌≡◌, ◌∷◌, [], IfOk};
ghost use Rattle.sat_gear.specs.Gear.{IsShape};

use sat_gear::Gear;
use sat_label::{Items, Point, SiteSet, Value};
use sat_sites::{Interest, Shape};
use std::alloc::Global;
use std::test::Fail;

// Site 0 of two, with one gear. Both keep the one item.
fn two_sites(alloc: Global) -> Result<Shape, Fail>
    ensures shape { IfOk result (λ shape. IsShape shape) }
    ensures whole { IfOk result (λ shape. shape
        ≡ record {
          sites = 2;
          gears = 1;
          site = 0;
          interest = record { sites = 2; replicas = record { bits = 3 } ∷ [] };
        }) }
{
    let interest = Interest::new(alloc, 2, &[SiteSet { bits: 3 }])?;
    Ok(Shape {
        sites: 2,
        gears: 1,
        site: 0,
        interest,
    })
}

#[test]
fn a_drain_takes_the_promise(rt: HostRuntime) -> Result<(), Fail> {
    let alloc = rt.alloc();
    let shape = two_sites(alloc)?;
    let mut gear = Gear::new(alloc, &shape, 0)?;
    let _ = gear.tick(7);
    let drained = gear.drain()?;
    assert_eq!(rt; drained.promise, 7);
    assert_eq!(rt; drained.labels.as_slice().len(), 0);
    assert_eq!(rt; drained.counts.as_slice(), [0, 0].as_slice());
    Ok(())
}

#[test]
fn a_write_answers_its_numbers(rt: HostRuntime) -> Result<(), Fail> {
    let alloc = rt.alloc();
    let shape = two_sites(alloc)?;
    let mut gear = Gear::new(alloc, &shape, 0)?;
    let value = Value::of(alloc, b"a")?.ok_or("no value")?;
    let stamped = gear.write(Point::zero(), Items::One(0), &[value])?;
    assert_eq!(rt; stamped.label.point.ts, 1);
    assert_eq!(rt; stamped.numbers.as_slice(), [0].as_slice());
    Ok(())
}
