//! Two lists whose numbers rise, compared.
use sat_apart::{Apart, Numbered, first_apart};
use std::test::*;

/// A word under a number.
#[derive(Clone, Copy)]
struct Mark {
    number: u64,
    word: u64,
}

impl Numbered for Mark {
    ghost place = { λ m. m.number };

    fn number(&self) -> u64 {
        self.number
    }

    fn is_same(&self, other: &Mark) -> bool {
        self.number == other.number && self.word == other.word
    }
}

// The numbers and words of a list, and of the same with another word, without its second member, and with one more.
#[test]
fn where_two_lists_part(rt: HostRuntime) -> Result<(), Fail> {
    let list = [
        Mark { number: 1, word: 7 },
        Mark { number: 3, word: 8 },
        Mark { number: 4, word: 9 },
    ];
    let other = [
        Mark { number: 1, word: 7 },
        Mark { number: 3, word: 5 },
        Mark { number: 4, word: 9 },
    ];
    let shorter = [Mark { number: 1, word: 7 }, Mark { number: 4, word: 9 }];
    assert_eq!(rt; first_apart(&list, &list), None);
    let words = Apart {
        number: 3,
        left: Some(1),
        right: Some(1),
    };
    assert_eq!(rt; first_apart(&list, &other), Some(words));
    let lacking = Apart {
        number: 3,
        left: None,
        right: Some(1),
    };
    assert_eq!(rt; first_apart(&shorter, &list), Some(lacking));
    let more = Apart {
        number: 1,
        left: Some(0),
        right: None,
    };
    assert_eq!(rt; first_apart(&shorter, &[]), Some(more));
    Ok(())
}
