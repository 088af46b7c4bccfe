//! Entries, words and numbers from outside.
ghost use Rattle.pq_words.specs.HeapWords.{FitsHeapWord};
ghost use Rattle.pq_words.specs.PlaceWords.{FitsPlaceWord};
ghost use Rattle.pq_words.specs.Fronts.{FitsFront};

use pq_words::{Entry, Front, HeapWord, Letter, PlaceWord, Tag};

#[test]
fn entries_have_their_numbers(rt: HostRuntime) {
    let table = [
        (0, 0, Some(0)),
        (5, 1, Some(20_971_521)),
        (67_108_863, 4_194_303, Some(281_474_976_710_655)),
        (67_108_864, 0, None),
        (0, 4_194_304, None),
    ];
    for (key, id, number) in table {
        let entry = Entry::new(key, id);
        assert_eq!(rt; entry.map(|e| e.raw()), number, "at {key} {id}");
    }
}

#[test]
fn numbers_have_their_entries(rt: HostRuntime) {
    assert!(rt; Entry::new(5, 1) == Some(Entry::from_raw(20_971_521)));
    let last = Entry::from_raw(281_474_976_710_655);
    assert!(rt; last.key == 67_108_863 && last.id == 4_194_303);
    assert!(rt; Entry::from_raw(20_971_521) < last);
}

// The number of a node's word, where the word comes back from it.
fn of_node(word: HeapWord) -> Option<u64>
    requires { FitsHeapWord word }
{
    let number = word.pack();
    (HeapWord::unpack(number) == word).then_some(number)
}

// The number of a place's word, where the word comes back from it.
fn of_place(word: PlaceWord) -> Option<u64>
    requires { FitsPlaceWord word }
{
    let number = word.pack();
    (PlaceWord::unpack(number) == word).then_some(number)
}

// The number of a letter, where the letter comes back from it.
fn of_letter(letter: Letter) -> Option<u64> {
    let number = letter.pack();
    (Letter::unpack(number) == letter).then_some(number)
}

#[test]
fn words_have_their_numbers(rt: HostRuntime) {
    let zero = Entry { key: 0, id: 0 };
    let entry = Entry { key: 5, id: 1 };
    let last = Entry {
        key: 67_108_863,
        id: 4_194_303,
    };
    let table = [
        (
            of_node(HeapWord {
                tag: Tag::Empty,
                owner: 0,
                entry: zero,
            }),
            0,
        ),
        (
            of_node(HeapWord {
                tag: Tag::Available,
                owner: 0,
                entry: zero,
            }),
            281_474_976_710_656,
        ),
        (
            of_node(HeapWord {
                tag: Tag::Available,
                owner: 0,
                entry: last,
            }),
            562_949_953_421_311,
        ),
        (
            of_node(HeapWord {
                tag: Tag::Busy,
                owner: 1,
                entry: entry,
            }),
            562_949_974_392_833,
        ),
        (
            of_node(HeapWord {
                tag: Tag::Busy,
                owner: 3,
                entry: entry,
            }),
            2_814_749_788_078_081,
        ),
        (
            of_node(HeapWord {
                tag: Tag::Busy,
                owner: 16,
                entry: last,
            }),
            17_732_923_532_771_327,
        ),
        (of_place(PlaceWord::Empty), 0),
        (
            of_place(PlaceWord::Pending {
                owner: 1,
                entry: zero,
            }),
            281_474_976_710_656,
        ),
        (
            of_place(PlaceWord::Pending { owner: 3, entry }),
            2_533_274_811_367_425,
        ),
        (
            of_place(PlaceWord::Pending {
                owner: 16,
                entry: last,
            }),
            17_451_448_556_060_671,
        ),
        (of_place(PlaceWord::In(zero)), 562_949_953_421_312),
        (of_place(PlaceWord::In(last)), 844_424_930_131_967),
        (of_place(PlaceWord::Frozen), 844_424_930_131_968),
        (of_letter(Letter::Nothing), 0),
        (of_letter(Letter::At(0)), 1),
        (of_letter(Letter::At(4_294_967_295)), 4_294_967_296),
        (of_letter(Letter::Back), 1_099_511_627_776),
    ];
    for (number, wanted) in table {
        assert_eq!(rt; number, Some(wanted));
    }
}

// The number, the length and the use of a front word, where the word comes back from the number, and where the total
// has room for the entries left.
fn of_front(front: Front) -> Option<(u64, u32, u32)>
    requires { FitsFront front }
{
    let number = front.pack();
    if Front::unpack(number) == front && front.remaining.saturating_sub(16) <= front.total {
        Some((number, front.length(), front.used()))
    } else {
        None
    }
}

#[test]
fn fronts_have_their_numbers(rt: HostRuntime) {
    let opening = Front {
        total: 0,
        claimed: 0,
        first: 0,
        remaining: 16,
    };
    let worked = Front {
        total: 8,
        claimed: 2,
        first: 1,
        remaining: 19,
    };
    let dry = Front {
        total: 0,
        claimed: 0,
        first: 575,
        remaining: 0,
    };
    let crowded = Front {
        total: 64,
        claimed: 16_384,
        first: 0,
        remaining: 80,
    };
    let longest = Front {
        total: 1_073_741_823,
        claimed: 0,
        first: 0,
        remaining: 0,
    };
    let greatest = Front {
        total: 1_073_741_823,
        claimed: 16_384,
        first: 575,
        remaining: 80,
    };
    let table = [
        (of_front(opening), (16, 0, 0)),
        (of_front(worked), (34_360_000_659, 5, 5)),
        (of_front(dry), (73_600, 0, 0)),
        (of_front(crowded), (277_025_390_672, 0, 16_448)),
        (
            of_front(longest),
            (4_611_686_014_132_420_608, 1_073_741_823, 0),
        ),
        (
            of_front(greatest),
            (4_611_686_016_279_977_936, 1_073_741_759, 16_448),
        ),
    ];
    for (number, wanted) in table {
        assert_eq!(rt; number, Some(wanted));
    }
}
