use crate::rows::expect_none;
use thread_hints::Hints;

/// What is asked of hints, and what has to be answered.
#[derive(Clone, Copy)]
enum Ask {
    /// This is the position of the number.
    IsAt(u32, u32),
    /// Behind notes of position 100 for thread 7 and position 200 for thread 71, these are theirs.
    Notes(u32, u32),
    /// Hints for so many records: whether the row is widened for them.
    Widens(usize, bool),
    /// Whether it is too narrow for them.
    AreFew(usize, bool),
}

/// Whether this is the answer.
fn answers(hints: &mut Hints, ask: Ask) -> bool {
    match ask {
        Ask::IsAt(number, position) => hints.position(number) == position,
        Ask::Notes(of_7, of_71) => {
            hints.note(7, 100);
            hints.note(71, 200);
            hints.position(7) == of_7 && hints.position(71) == of_71
        }
        Ask::Widens(records, widens) => hints.widen_for(records) == widens,
        Ask::AreFew(records, are_few) => hints.are_few_for(records) == are_few,
    }
}

/// The first of these that is answered otherwise.
fn first_other(hints: &mut Hints, asks: &[Ask]) -> Option<usize> {
    for (row, &ask) in asks.iter().enumerate() {
        if !answers(hints, ask) {
            return Some(row);
        }
    }
    None
}

const ALIKE: [Ask; 7] = [
    Ask::IsAt(7, 0),
    Ask::Notes(200, 200),
    Ask::Widens(33, true),
    Ask::IsAt(7, 0),
    Ask::Notes(100, 200),
    Ask::IsAt(7 + 256, 100),
    Ask::IsAt(7 + 128, 0),
];

const TO_THE_MOST: [Ask; 25] = [
    Ask::AreFew(32, false),
    Ask::AreFew(33, true),
    Ask::Widens(32, false),
    Ask::Widens(33, true),
    Ask::AreFew(128, false),
    Ask::AreFew(129, true),
    Ask::Widens(128, false),
    Ask::Widens(129, true),
    Ask::AreFew(512, false),
    Ask::AreFew(513, true),
    Ask::Widens(512, false),
    Ask::Widens(513, true),
    Ask::AreFew(2_048, false),
    Ask::AreFew(2_049, true),
    Ask::Widens(2_048, false),
    Ask::Widens(2_049, true),
    Ask::AreFew(8_192, false),
    Ask::AreFew(8_193, true),
    Ask::Widens(8_192, false),
    Ask::Widens(8_193, true),
    Ask::AreFew(1_000_000, false),
    Ask::Notes(100, 200),
    Ask::Widens(1_000_000, false),
    Ask::IsAt(7, 100),
    Ask::IsAt(71, 200),
];

const AT_ONCE: [Ask; 5] = [
    Ask::Widens(2_049, true),
    Ask::AreFew(8_192, false),
    Ask::AreFew(8_193, true),
    Ask::IsAt(7, 0),
    Ask::Notes(100, 200),
];

const TABLES: [(&str, &[Ask]); 3] = [
    (
        "a hint is the last position of a number that ends alike",
        &ALIKE,
    ),
    ("hints widen to the most", &TO_THE_MOST),
    ("a row is widened at once for all that are there", &AT_ONCE),
];

#[test]
fn hints_are_noted_and_widened(rt: HostRuntime) {
    for (name, asks) in TABLES {
        let mut hints = Hints::new(rt.alloc());
        expect_none(&rt, name, Ok(first_other(&mut hints, asks)));
    }
}
