//! A gather of what two gears of site 0 gave, of one timestamp.
ghost use Rattle.std.specs.Prelude.{◌≡◌, [], IfOk};
ghost use Rattle.sat_label.specs.declared.items.Items.TheVariants.{One};

use sat_bulk::Drained;
use sat_label::{Counts, Items, Kind, Label, Labels, Point};
use sat_sink::LabelSink;
use std::alloc::{AllocError, Global};
use std::test::Fail;

// An update that a gear of site 0 made.
fn update(ts: u64, gear: u16) -> Label
    ensures { result ≡ record { point = record { ts = ts; site = 0; gear = gear }; kind = Kind.Update (One 0) } }
{
    Label {
        point: Point { ts, site: 0, gear },
        kind: Kind::Update(Items::One(0)),
    }
}

// What a gear with these new labels and this promise drains.
fn drained(alloc: Global, labels: &[Label], promise: u64) -> Result<Drained, AllocError>
    ensures { IfOk result (λ d. d ≡ record { labels = labels.now; promise = promise; counts = [] }) }
{
    let mut list = Labels::new(alloc);
    for label in labels {
        list.push(*label)?;
    }
    Ok(Drained {
        labels: list,
        promise,
        counts: Counts::new(alloc),
    })
}

#[test]
fn labels_of_one_timestamp_leave_by_gear(rt: HostRuntime) -> Result<(), Fail> {
    let alloc = rt.alloc();
    let mut sink = LabelSink::new(alloc, 0, 2)?;
    let first = drained(alloc, &[update(1, 0)], 1)?;
    let second = drained(alloc, &[update(1, 1)], 1)?;
    sink.gather(&[first, second])?;
    assert_eq!(rt; sink.stable(), 1);
    assert_eq!(rt; sink.cut(), Point::mark(0, 0));
    assert_eq!(rt; sink.emit(), Some(update(1, 0)));
    assert_eq!(rt; sink.cut(), update(1, 0).point);
    assert_eq!(rt; sink.emit(), Some(update(1, 1)));
    assert_eq!(rt; sink.emit(), None);
    assert_eq!(rt; sink.cut(), Point::mark(1, 0));
    Ok(())
}
