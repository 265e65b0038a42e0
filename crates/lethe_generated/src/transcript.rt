//! A reader of what a script of several callers printed, which knows the two texts alone.

use crate::answers::{Answer, answers_of, count_orders, number_of};
use std::alloc::{AllocError, Global};

/// How long what is erased may stay, in the configurations of generated scripts.
const THRESHOLD: u64 = 100;

/// A change, as a line of a script asks for it.
#[derive(Clone, Copy)]
enum Change<'a> {
    Put { key: &'a str, held: Held<'a> },
    Delete { key: &'a str },
    Erase { low: u64, high: u64 },
    Tick { to: u64 },
}

/// What a key holds.
#[derive(Clone, Copy, PartialEq, Eq)]
struct Held<'a> {
    due: &'a str,
    value: &'a str,
}

/// Each line of a run with its answer, as they are printed, and the changes by their places.
#[derive(Drop)]
struct Transcript<'a> {
    answers: Vec<Answer<'a>>,
    history: Vec<Change<'a>>,
}

fn erase_of<'a>(low: &str, high: &str) -> Option<Change<'a>> {
    match (number_of(low), number_of(high)) {
        (Some(low), Some(high)) => Some(Change::Erase { low, high }),
        _ => None,
    }
}

/// The change that a line asks for.
fn change_of<'a>(asked: &[&'a str]) -> Option<Change<'a>> {
    match asked {
        ["put", key, due, value] => Some(Change::Put {
            key,
            held: Held { due, value },
        }),
        ["del", key] => Some(Change::Delete { key }),
        ["erase", low, high] => erase_of(low, high),
        ["tick", to] => match number_of(to) {
            Some(to) => Some(Change::Tick { to }),
            None => None,
        },
        _ => None,
    }
}

/// The change at a place.
fn change_at<'a>(answers: &[Answer<'a>], place: u64) -> Option<Change<'a>> {
    let mut placed = answers
        .iter()
        .filter(|answer| answer.place() == Some(place));
    match placed.next() {
        Some(answer) => change_of(&answer.asked),
        None => None,
    }
}

/// The changes, by their places from 1 on.
fn history_of<'a>(alloc: Global, answers: &[Answer<'a>]) -> Result<Vec<Change<'a>>, AllocError> {
    let mut history = Vec::new(alloc);
    for place in 1..=answers.len() as u64 {
        if let Some(change) = change_at(answers, place) {
            history.push(change)?;
        }
    }
    Ok(history)
}

impl<'a> Held<'a> {
    /// Whether its delete key is at least the one number, and below the other.
    fn is_within(&self, low: u64, high: u64) -> bool {
        match number_of(self.due) {
            Some(due) => low <= due && due < high,
            None => false,
        }
    }
}

impl<'a> Change<'a> {
    /// What a key holds behind it.
    fn behind(&self, held: Option<Held<'a>>, key: &str) -> Option<Held<'a>> {
        match self {
            Change::Put { key: other, held } if *other == key => Some(*held),
            Change::Delete { key: other } if *other == key => None,
            Change::Erase { low, high } => held.filter(|held| !held.is_within(*low, *high)),
            _ => held,
        }
    }

    /// The key that it puts.
    fn put_key(&self) -> Option<&'a str> {
        match self {
            Change::Put { key, .. } => Some(*key),
            _ => None,
        }
    }

    /// The time to which it moves the clock.
    fn time(&self) -> Option<u64> {
        match self {
            Change::Tick { to } => Some(*to),
            _ => None,
        }
    }
}

/// The slot of a line `pin`.
fn pinned_slot<'a>(asked: &[&'a str]) -> Option<&'a str> {
    match asked {
        ["pin", slot] => Some(slot),
        _ => None,
    }
}

/// Whether a field is 64 hexadecimal digits in lower case.
fn is_digest(field: &str) -> bool {
    field.len() == 64
        && field
            .bytes()
            .all(|byte| matches!(byte, b'0'..=b'9' | b'a'..=b'f'))
}

/// Whether a line tells that the clock was moved to a time.
fn is_clock(told: &[&str], clock: &str) -> bool {
    match told {
        ["ok", _, "clock", to, ..] => *to == clock,
        _ => false,
    }
}

/// Whether a line tells of a pin of this number and limit.
fn is_pin(told: &[&str], number: &str, limit: &str) -> bool {
    match told {
        ["at", _, "pin", other, "limit", to] => *other == number && *to == limit,
        _ => false,
    }
}

/// The limit of a pin that a line tells of.
fn limit_of(told: &[&str]) -> Option<u64> {
    match told {
        ["at", _, "pin", _, "limit", limit] => number_of(limit),
        _ => None,
    }
}

/// The number of a pin that is let go.
fn unpinned(told: &[&str]) -> Option<u64> {
    match told {
        ["at", _, "unpin", number] => number_of(number),
        _ => None,
    }
}

/// Whether a line that stands before another is carried out before it, whatever the order of the callers.
fn is_before(answer: &Answer, other: &Answer) -> bool {
    answer.phase < other.phase || answer.caller == other.caller
}

impl<'a> Transcript<'a> {
    fn of(alloc: Global, script: &'a str, printed: &'a str) -> Result<Transcript<'a>, AllocError> {
        let answers = answers_of(alloc, script, printed)?;
        let history = history_of(alloc, &answers)?;
        Ok(Transcript { answers, history })
    }

    /// What a key holds behind so many changes.
    fn held(&self, point: usize, key: &str) -> Option<Held<'a>> {
        let mut held = None;
        for change in self.history.iter().take(point) {
            held = change.behind(held, key);
        }
        held
    }

    /// The clock behind so many changes.
    fn clock(&self, point: usize) -> u64 {
        let changes = self.history.iter().take(point);
        changes
            .filter_map(|change| change.time())
            .last()
            .unwrap_or(0)
    }

    /// How many certificates there are behind so many changes.
    fn certificates(&self, point: usize) -> usize {
        let changes = self.history.iter().take(point);
        changes
            .filter_map(|change| change.time())
            .filter(|to| *to >= THRESHOLD)
            .count()
    }

    /// Whether no later one of so many changes, of which the first ones are skipped, puts a key.
    fn is_last_put(&self, skipped: usize, point: usize, key: &str) -> bool {
        let changes = self.history.iter().take(point);
        !changes
            .skip(skipped)
            .any(|later| later.put_key() == Some(key))
    }

    /// How many keys of a range hold something behind so many changes: each is counted at its last put.
    fn count_listed(&self, point: usize, low: &str, high: &str) -> usize {
        let mut count: usize = 0;
        for (index, change) in self.history.iter().take(point).enumerate() {
            let Some(key) = change.put_key() else {
                continue;
            };
            let is_last = self.is_last_put(index.saturating_add(1), point, key);
            if is_last && low <= key && key < high && self.held(point, key).is_some() {
                count = count.saturating_add(1);
            }
        }
        count
    }

    /// The greatest place or point that had been told before a line: to its caller, or to anybody in an earlier phase.
    fn seen(&self, at: usize, answer: &Answer) -> u64 {
        self.answers
            .iter()
            .take(at)
            .filter(|other| is_before(other, answer))
            .filter_map(|other| other.point())
            .max()
            .unwrap_or(0)
    }

    /// How many changes were made up to the end of a phase.
    fn made_through(&self, phase: usize) -> u64 {
        self.answers
            .iter()
            .filter(|other| other.phase <= phase && other.place().is_some())
            .count() as u64
    }

    /// Whether a change may have this place: one of those of its phase, which its caller hadn't seen and no line before it has.
    fn is_placed(&self, at: usize, answer: &Answer, place: u64) -> bool {
        let is_free = !self
            .answers
            .iter()
            .take(at)
            .any(|other| other.place() == Some(place));
        is_free && self.seen(at, answer) < place && place <= self.made_through(answer.phase)
    }

    /// The point that a field of a line is, where its caller may see the store there.
    fn point_of(&self, at: usize, answer: &Answer, field: &str) -> Option<usize> {
        let point = number_of(field)?;
        if self.seen(at, answer) <= point && point <= self.made_through(answer.phase) {
            Some(point as usize)
        } else {
            None
        }
    }

    /// Whether fields show what a key holds behind so many changes.
    fn shows(&self, point: usize, key: &str, shown: &[&str]) -> bool {
        match (shown, self.held(point, key)) {
            (["val", due, value], Some(held)) => *due == held.due && *value == held.value,
            (["none"], None) => true,
            _ => false,
        }
    }

    /// Whether fields list what all keys of a range hold behind so many changes.
    fn lists(&self, point: usize, low: &str, high: &str, shown: &[&str]) -> bool {
        let ["scan", count, pairs @ ..] = shown else {
            return false;
        };
        let listed = self.count_listed(point, low, high);
        number_of(count) == Some(listed as u64)
            && pairs.len() == listed.saturating_mul(3)
            && self.are_listed(point, low, high, pairs)
    }

    /// Whether keys of a range ascend, each with what it holds behind so many changes.
    fn are_listed(&self, point: usize, low: &str, high: &str, pairs: &[&str]) -> bool {
        let mut last = None;
        for pair in pairs.chunks(3) {
            let [key, due, value] = pair else {
                return false;
            };
            let is_next = low <= *key && *key < high && last < Some(*key);
            if !is_next || self.held(point, key) != Some(Held { due, value }) {
                return false;
            }
            last = Some(*key);
        }
        true
    }

    /// The line of the pin that a slot of the caller of a line holds there.
    fn pin_in(&self, at: usize, answer: &Answer, slot: &str) -> Option<&Answer<'a>> {
        self.answers
            .iter()
            .take(at)
            .filter(|other| other.caller == answer.caller)
            .filter(|other| pinned_slot(&other.asked) == Some(slot))
            .last()
    }

    /// Whether a line tells that its change is done.
    fn is_done(&self, at: usize, answer: &Answer) -> bool {
        match (answer.told.as_slice(), answer.place()) {
            (["ok", _], Some(place)) => self.is_placed(at, answer, place),
            _ => false,
        }
    }

    /// Whether fields show the certificate of a tick to a time behind so many changes, or nothing where none is due.
    fn is_certified(&self, point: usize, to: u64, shown: &[&str]) -> bool {
        match shown {
            [] => to < THRESHOLD,
            ["cert", number, "before", before, "sha256", digest] => {
                let next = self.certificates(point).saturating_add(1);
                to >= THRESHOLD
                    && number_of(number) == Some(next as u64)
                    && number_of(before) == Some(to.saturating_sub(THRESHOLD))
                    && is_digest(digest)
            }
            _ => false,
        }
    }

    /// Whether a tick at a place moves the clock to its time.
    fn moves(&self, at: usize, answer: &Answer, place: u64, to: u64, shown: &[&str]) -> bool {
        let before = place.saturating_sub(1) as usize;
        self.is_placed(at, answer, place)
            && self.clock(before) <= to
            && self.is_certified(before, to, shown)
            && !self.is_barred(at, answer, to)
    }

    /// Whether a line tells what a tick to a time may be answered.
    fn is_ticked(&self, at: usize, answer: &Answer, to: &str) -> bool {
        let Some(time) = number_of(to) else {
            return false;
        };
        match answer.told.as_slice() {
            ["ok", place, "clock", clock, shown @ ..] => match number_of(place) {
                Some(place) => *clock == to && self.moves(at, answer, place, time, shown),
                None => false,
            },
            ["backwards", clock] => number_of(clock) > Some(time) && self.has_clock(answer, clock),
            ["pinned", number, "limit", limit] => {
                number_of(limit) <= Some(time) && self.has_pin(answer, number, limit)
            }
            _ => false,
        }
    }

    /// Whether a tick of these phases moves the clock to this time.
    fn has_clock(&self, answer: &Answer, clock: &str) -> bool {
        self.answers
            .iter()
            .filter(|other| other.phase <= answer.phase)
            .any(|other| is_clock(&other.told, clock))
    }

    /// Whether a pin of these phases has this number and this limit.
    fn has_pin(&self, answer: &Answer, number: &str, limit: &str) -> bool {
        self.answers
            .iter()
            .filter(|other| other.phase <= answer.phase)
            .any(|other| is_pin(&other.told, number, limit))
    }

    /// Whether a pin is held at a line, whatever the order of the callers is, whose limit is at a time or before.
    fn is_barred(&self, at: usize, answer: &Answer, to: u64) -> bool {
        self.answers
            .iter()
            .take(at)
            .filter(|pin| is_before(pin, answer))
            .filter(|pin| limit_of(&pin.told).is_some_and(|limit| limit <= to))
            .any(|pin| !self.may_be_let_go(at, answer, pin.pin()))
    }

    /// Whether the pin of a number may be let go at a line.
    fn may_be_let_go(&self, at: usize, answer: &Answer, number: Option<u64>) -> bool {
        let mut lines = self.answers.iter().enumerate();
        lines.any(|(index, other)| {
            let may_be = index < at || other.caller != answer.caller;
            unpinned(&other.told) == number && other.phase <= answer.phase && may_be
        })
    }

    /// How many pins were made up to the end of a phase.
    fn pins_through(&self, phase: usize) -> u64 {
        self.answers
            .iter()
            .filter(|other| other.phase <= phase && other.pin().is_some())
            .count() as u64
    }

    /// Whether a pin may have this number: one of those of its phase, above what its caller had seen, which no line before it has.
    fn is_numbered(&self, at: usize, answer: &Answer, number: u64) -> bool {
        1 <= number
            && number <= self.pins_through(answer.phase)
            && !self.answers.iter().take(at).any(|other| {
                other.pin() == Some(number)
                    || is_before(other, answer) && other.pin() > Some(number)
            })
    }

    /// Whether no pin of a smaller number has a later point.
    fn is_in_turn(&self, number: u64, point: u64) -> bool {
        !self
            .answers
            .iter()
            .filter(|other| other.pin().is_some_and(|least| least < number))
            .any(|other| other.point() > Some(point))
    }

    /// Whether a line tells of a pin that is made.
    fn is_pinned(&self, at: usize, answer: &Answer) -> bool {
        let ["at", field, "pin", number, "limit", limit] = answer.told.as_slice() else {
            return false;
        };
        let (Some(point), Some(number), Some(limit)) = (
            self.point_of(at, answer, field),
            number_of(number),
            number_of(limit),
        ) else {
            return false;
        };
        self.is_numbered(at, answer, number)
            && self.is_in_turn(number, point as u64)
            && limit <= self.clock(point).saturating_add(THRESHOLD)
    }

    /// Whether a number and a point are those of the pin that a slot of the caller holds.
    fn is_held_in(
        &self,
        at: usize,
        answer: &Answer,
        slot: &str,
        number: &str,
        point: &str,
    ) -> bool {
        match self.pin_in(at, answer, slot) {
            Some(pin) => pin.pin() == number_of(number) && pin.point() == number_of(point),
            None => false,
        }
    }

    /// What a read in a slot shows, and at which point, where the number and the point are those of its pin.
    fn shown_in<'b>(
        &self,
        at: usize,
        answer: &'b Answer<'a>,
        slot: &str,
    ) -> Option<(usize, &'b [&'a str])> {
        match answer.told.as_slice() {
            ["pin", number, "at", point, shown @ ..]
                if self.is_held_in(at, answer, slot, number, point) => {
                match number_of(point) {
                    Some(point) => Some((point as usize, shown)),
                    None => None,
                }
            }
            _ => None,
        }
    }

    /// What a read of the store shows, and at which point, where its caller may see the store there.
    fn shown_at<'b>(&self, at: usize, answer: &'b Answer<'a>) -> Option<(usize, &'b [&'a str])> {
        match answer.told.as_slice() {
            ["at", field, shown @ ..] => match self.point_of(at, answer, field) {
                Some(point) => Some((point, shown)),
                None => None,
            },
            _ => None,
        }
    }

    fn is_got(&self, read: Option<(usize, &[&str])>, key: &str) -> bool {
        match read {
            Some((point, shown)) => self.shows(point, key, shown),
            None => false,
        }
    }

    fn is_scanned(&self, read: Option<(usize, &[&str])>, low: &str, high: &str) -> bool {
        match read {
            Some((point, shown)) => self.lists(point, low, high, shown),
            None => false,
        }
    }

    /// Whether a line tells that the pin of a slot is let go.
    fn is_unpinned(&self, at: usize, answer: &Answer, slot: &str) -> bool {
        match (answer.told.as_slice(), self.pin_in(at, answer, slot)) {
            (["at", field, "unpin", number], Some(pin)) => {
                pin.pin() == number_of(number) && self.point_of(at, answer, field).is_some()
            }
            _ => false,
        }
    }

    /// Whether a line tells of the store as a whole.
    fn is_counted(&self, at: usize, answer: &Answer) -> bool {
        match answer.told.as_slice() {
            ["at", field, "stat", "clock", clock, ..] => match self.point_of(at, answer, field) {
                Some(point) => number_of(clock) == Some(self.clock(point)),
                None => false,
            },
            _ => false,
        }
    }

    /// Whether a line tells what its order may be answered.
    fn is_right(&self, at: usize, answer: &Answer) -> bool {
        match answer.asked.as_slice() {
            ["put", ..] | ["del", ..] | ["erase", ..] => self.is_done(at, answer),
            ["tick", to] => self.is_ticked(at, answer, to),
            ["get", key] => self.is_got(self.shown_at(at, answer), key),
            ["scan", low, high] => self.is_scanned(self.shown_at(at, answer), low, high),
            ["pin", _] => self.is_pinned(at, answer),
            ["pget", slot, key] => self.is_got(self.shown_in(at, answer, slot), key),
            ["pscan", slot, low, high] => self.is_scanned(
                self.shown_in(at, answer, slot),
                low,
                high,
            ),
            ["unpin", slot] => self.is_unpinned(at, answer, slot),
            ["stat"] => self.is_counted(at, answer),
            _ => false,
        }
    }

    /// Where the first line stands that was printed to another caller, or doesn't tell what its order may be answered.
    fn wrong_line(&self) -> Option<usize> {
        let mut lines = self.answers.iter().enumerate();
        lines.position(|(at, answer)| !answer.is_to_caller || !self.is_right(at, answer))
    }
}

/// The number of the first line that is wrong in what a script printed over an empty disk of which nothing fails, or that is missing; none where all are right. Known are the two
/// texts alone, and that what is erased may stay for 100. The lines of a phase are its orders, caller by caller. The changes have the places from 1 on once each, and those of a phase
/// stand behind those of the phases before. Each read shows what the changes up to its point make of its key or its range; in a slot the point is that of the pin that the slot
/// holds. No caller goes back: a change stands above all that its caller had seen, and a read isn't below it. Pins are numbered from 1 on in the order of their points, and no tick
/// reaches the limit of one that is held.
///
/// A line of the script is `phase`, or has one space between its fields, as in generated scripts; what it asks for is in order, and keys and values are printed as they stand there.
pub fn first_wrong_line(
    alloc: Global,
    script: &str,
    printed: &str,
) -> Result<Option<usize>, AllocError> {
    let transcript = Transcript::of(alloc, script, printed)?;
    let wrong = transcript.wrong_line();
    let (asked, told) = (count_orders(script), printed.lines().count());
    let number = match wrong {
        Some(index) => Some(index.saturating_add(1)),
        None if asked != told => Some(asked.min(told).saturating_add(1)),
        None => None,
    };
    Ok(number)
}
