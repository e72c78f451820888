//! A few answers that are worked out by hand.
use super::hex;
use admission::admit::admit;
use admission::refusal::Refusal as Unfit;
use queue::{Answer, Call, HeapQueue, ListQueue, Mismatch, QueueEntry, Released, Waiting, both};
use table::limits::{MOST_SECTIONS, MOST_TASKS};
use table::read::read;
use table::records::{Counts, SectionRecord, Span, TaskRecord};
use table::refusal::{Place, Refusal, Rule};

/// What reading answers with room for every table.
fn answer(text: &[u8]) -> Result<Counts, Refusal> {
    let mut tasks = [TaskRecord::EMPTY; MOST_TASKS];
    let mut sections = [SectionRecord::EMPTY; MOST_SECTIONS];
    read(text, &mut tasks, &mut sections)
}

/// A refusal of the rule on the first line.
fn broken(rule: Rule, byte: usize) -> Result<Counts, Refusal> {
    Err(Refusal::Broken(rule, Place { line: 1, byte }))
}

#[test]
fn letters_of_a_number_in_base_16_are_small(rt: HostRuntime) {
    let values = [b'0', b'9', b'a', b'f', b'g', b'A', b'F', 0xff].map(|b| hex(b));
    assert_eq!(rt; values, [0, 9, 10, 15, 0, 0, 0, 0]);
}

#[test]
fn each_refusal_has_its_place(rt: HostRuntime) {
    let cases: [(&[u8], Result<Counts, Refusal>); 9] = [
        (b"", Err(Refusal::Empty)),
        (b"x: D=1", broken(Rule::Form, 7)),
        (b"x: D=1 T=1 C=01\n", broken(Rule::Number, 14)),
        (b"x: D=3 T=4 C=4\n", broken(Rule::Times, 1)),
        (
            b"x: D=9 T=9 C=9 1{ 1{ 1{ 1{ 1{ 1{ 1{ 1{ 1{ } } } } } } } } }\n",
            broken(Rule::Sections, 40),
        ),
        (
            b"x: D=9 T=9 C=9 1{ a 1{ A } }\n",
            broken(Rule::Repeated, 24),
        ),
        (b"x: D=9 T=9 C=9 1{ 2{ } }\n", broken(Rule::Length, 19)),
        (b"x: D=9 T=9 C=9 \xff\n", broken(Rule::Form, 16)),
        (
            b"x: D=9 T=9 C=9 1{ a }\n",
            Ok(Counts {
                tasks: 1,
                sections: 1,
            }),
        ),
    ];
    for (text, expected) in cases {
        assert_eq!(rt; answer(text), expected);
    }
}

/// What admission says of a text that is read, if it refuses it.
fn unfit(text: &[u8]) -> Option<Unfit> {
    let mut tasks = [TaskRecord::EMPTY; MOST_TASKS];
    let mut sections = [SectionRecord::EMPTY; MOST_SECTIONS];
    let counts = read(text, &mut tasks, &mut sections).ok()?;
    admit(&tasks[..counts.tasks], &sections[..counts.sections]).err()
}

/// The flash table, and the same with a longer last section: one that still fits, and one that does not.
const FLASH: &[u8] =
    b"hostrd: D=40 T=50 C=10 9{ a B }\nmapupd: D=50 T=80 C=10 8{ a 2{ B 1{ C } } }\nreloc: D=60 T=100 C=20 2{ b } 17{ c 13{ b } }\nscrub: D=90 T=90 C=30 18{ a c }\n";

const LONGER: &[u8] =
    b"hostrd: D=40 T=50 C=10 9{ a B }\nmapupd: D=50 T=80 C=10 8{ a 2{ B 1{ C } } }\nreloc: D=60 T=100 C=20 2{ b } 17{ c 13{ b } }\nscrub: D=90 T=90 C=30 20{ a c }\n";

const TOO_LONG: &[u8] =
    b"hostrd: D=40 T=50 C=10 9{ a B }\nmapupd: D=50 T=80 C=10 8{ a 2{ B 1{ C } } }\nreloc: D=60 T=100 C=20 2{ b } 17{ c 13{ b } }\nscrub: D=90 T=90 C=30 21{ a c }\n";

#[test]
fn a_section_can_be_too_long(rt: HostRuntime) {
    assert_eq!(rt; unfit(FLASH), None);
    assert_eq!(rt; unfit(LONGER), None);
    assert_eq!(rt; unfit(TOO_LONG), Some(Unfit::Demand(60, 61)));
}

#[test]
fn rules_of_records_come_first(rt: HostRuntime) {
    let none = Span::EMPTY;
    let task = TaskRecord {
        name: none,
        deadline: 3,
        period: 4,
        cost: 4,
        sections: none,
    };
    assert_eq!(rt; admit(&[task], &[]).err(), Some(Unfit::Records));
}

/// The task that was taken, if one was.
fn taken<E: QueueEntry>(answer: &Answer<E>) -> Option<usize> {
    match answer {
        Answer::Inserted(_) => None,
        Answer::Taken(entry) => entry.map(|e| e.task()),
    }
}

/// Puts three entries in, and takes three out.
fn in_and_out<E: QueueEntry>(entries: [E; 3]) -> [Call<E>; 6] {
    let [first, second, third] = entries;
    [
        Call::Insert(first),
        Call::Insert(second),
        Call::Insert(third),
        Call::Take,
        Call::Take,
        Call::Take,
    ]
}

/// The tasks that the last three of six answers took out.
fn last_taken<E: QueueEntry>(answers: &[Answer<E>; 6]) -> [Option<usize>; 3] {
    [taken(&answers[3]), taken(&answers[4]), taken(&answers[5])]
}

/// Makes the calls on a list and on a heap over the lent entries, and writes down what each answers.
// The arrays are each test's own: of an entry of any type it would have to be asked that so many of them fit in memory.
fn answer_calls<E: QueueEntry>(
    calls: &[Call<E>],
    entries: (&mut [E], &mut [E]),
    answers: (&mut [Answer<E>], &mut [Answer<E>]),
) -> Result<(), Mismatch> {
    let (in_list, in_heap) = entries;
    let (from_list, from_heap) = answers;
    let mut list = ListQueue::new(in_list);
    let mut heap = HeapQueue::new(in_heap);
    both(calls, &mut list, &mut heap, from_list, from_heap)
}

#[test]
fn both_queues_give_out_waiting_tasks_alike(rt: HostRuntime) {
    let first = Waiting {
        release: 7,
        task: 4,
    };
    let second = Waiting {
        release: 9,
        task: 0,
    };
    let third = Waiting {
        release: 7,
        task: 2,
    };
    let calls = in_and_out([first, second, third]);
    let (mut in_list, mut in_heap) = ([first; 3], [first; 3]);
    let mut from_list = [Answer::Taken(None); 6];
    let mut from_heap = [Answer::Taken(None); 6];
    assert_eq!(rt;
        answer_calls(
            &calls,
            (&mut in_list, &mut in_heap),
            (&mut from_list, &mut from_heap),
        ),
        Ok(())
    );
    let expected = [Some(2), Some(4), Some(0)];
    assert_eq!(rt; last_taken(&from_list), expected);
    assert_eq!(rt; last_taken(&from_heap), expected);
}

#[test]
fn both_queues_give_out_released_tasks_alike(rt: HostRuntime) {
    let first = Released {
        deadline: 9,
        relative: 5,
        task: 0,
    };
    let second = Released {
        deadline: 9,
        relative: 3,
        task: 7,
    };
    let third = Released {
        deadline: 8,
        relative: 6,
        task: 1,
    };
    let calls = in_and_out([first, second, third]);
    let (mut in_list, mut in_heap) = ([first; 3], [first; 3]);
    let mut from_list = [Answer::Taken(None); 6];
    let mut from_heap = [Answer::Taken(None); 6];
    assert_eq!(rt;
        answer_calls(
            &calls,
            (&mut in_list, &mut in_heap),
            (&mut from_list, &mut from_heap),
        ),
        Ok(())
    );
    let expected = [Some(1), Some(7), Some(0)];
    assert_eq!(rt; last_taken(&from_list), expected);
    assert_eq!(rt; last_taken(&from_heap), expected);
}
