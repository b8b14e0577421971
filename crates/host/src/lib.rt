// The entries for a C host (include/kickballbox.h): every call of the product over byte slices and numbers, each number 64 bits wide, the
// reply a struct by value. Each is a thin call of the entry that it names. It rests on `host_replies` and on the crates of these entries.
// Open to callers; none has a `requires`, since nothing checks a C caller.
#![tactic(auto)]

ghost use Rattle.std.specs.Prelude.{◌≡◌, length};
ghost use Rattle.file_reader.specs.Reading.{header_of, domains_of};
ghost use Rattle.file_lookup.specs.Lookup.{look_up};
ghost use Rattle.file_lookup.specs.Ternary.{look_up_ternary};
ghost use Rattle.file_bytes.specs.Bytes.{handed};
ghost use Rattle.file_writer.specs.Writing.{write_told, write_buffer};
ghost use Rattle.formula_entries.specs.Told.{formula_told, formula_left, judge_formula_told};
ghost use Rattle.group_entries.specs.Told.{groups_told, groups_listed, write_group_told, write_group_left};
ghost use Rattle.rule_entries.specs.Alone.{arc_told, arc_left, forward_told, forward_left, ahead_told, pure_told, pure_shown, interchangeable_told};
ghost use Rattle.session.specs.Told.{play_told, play_left, take_back_told, take_back_left, lock_told, lock_left, unlock_told, unlock_left};
ghost use Rattle.session.specs.Told.{open_told, masks_shown, counts_shown};
ghost use Rattle.search_run.specs.Run.{held_room};
ghost use Rattle.judging.specs.Judging.{judge_told, judge_left};
ghost use Rattle.judging.specs.Searching.{search_found};
ghost use Rattle.marking.specs.Marking.{mark_told, mark_left};
ghost use Rattle.host_replies.specs.Replies.{read_file_of, found_of, found_body_of, written_of, answer_of, moved_of, opened_of, judgement_of};
ghost use Rattle.host_replies.specs.Replies.{marks_of, searched_of, ruled_of, checked_of, looked_of, named_of, values_of, formula_judgement_of, group_list_of};
ghost use Rattle.host.specs.Unpack.{unpack};
ghost use Rattle.host.specs.Handed.{set_handed};
ghost use Rattle.host.specs.Text.{text_told, text_left};
ghost use Rattle.host.specs.Replayed.{replay_of};

mod handed;
mod text;
mod unpack;

use file_lookup::{look_up, look_up_ternary};
use file_reader::read;
use file_writer::write;
use formula_entries::{judge_formula, write_formula};
use group_entries::{groups, write_group};
use handed::set_handed;
use history::replay;
use host_replies::{
    CallAnswer, CheckedList, FormulaJudgement, FoundBody, FoundRows, GroupList, Judgement,
    LookedAhead, Marks, MovedPosition, NamedValues, OpenMasks, ReadFile, ReplayedCalls, RuledList,
    SearchFindings, ValueMask, WrittenBytes, moved_shown,
};
use judging::{judge, search};
use marking::mark;
use position::Position;
use refusal::Refusal;
use rule_entries::{arc, forward_check, interchangeable, look_ahead, pure};
use search_run::ROOM;
use session::{lock, open_values, play, take_back, unlock};
use text::text_of;
use unpack::unpacked;

// KB_INTERFACE of the header: raised by every change of a signature or a struct.
#[unsafe(no_mangle)]
pub extern "C" fn kb_interface() -> u64
    ensures { result ≡ 7 }
{
    7
}

// Reads a file.
#[unsafe(no_mangle)]
pub extern "C" fn kb_read(f: &[u8]) -> ReadFile
    ensures { result ≡ read_file_of (header_of f.now) (domains_of f.now) }
{
    ReadFile::from(read(f))
}

// Looks up the constraint of a pair.
#[unsafe(no_mangle)]
pub extern "C" fn kb_look_up(f: &[u8], i: u64, j: u64) -> FoundRows
    ensures { result ≡ found_of (look_up f.now i j) }
{
    FoundRows::from(look_up(f, i as usize, j as usize))
}

// Looks up the three-way constraint of this number, counted from 0.
#[unsafe(no_mangle)]
pub extern "C" fn kb_look_up_triples(f: &[u8], number: u64) -> FoundBody
    ensures { result ≡ found_body_of (look_up_ternary f.now number) }
{
    FoundBody::from(look_up_ternary(f, number as usize))
}

// Writes the file of these numbers; no rule set where `given` is 0.
#[unsafe(no_mangle)]
pub extern "C" fn kb_write(
    buf: &mut [u8],
    n: u64,
    m: u64,
    given: u64,
    rules: u64,
    universal: u64,
    domains: &[u16],
    constraints: &[u16],
    ternaries: &[u16],
) -> WrittenBytes
    ensures value { result ≡ written_of
        (write_told
        (handed n m (set_handed given rules) universal domains.now constraints.now ternaries.now)
        (length buf.old)) }
    ensures buf_after { buf.new ≡ write_buffer
        (handed n m (set_handed given rules) universal domains.now constraints.now ternaries.now)
        buf.old }
{
    let written = write(
        buf,
        n as usize,
        m as usize,
        set_handed(given, rules),
        universal,
        domains,
        constraints,
        ternaries,
    );
    WrittenBytes::from(written.map_err(Refusal::InCall))
}

// Writes what the judging program prints.
#[unsafe(no_mangle)]
pub extern "C" fn kb_report(f: &[u8], buf: &mut [u8]) -> WrittenBytes
    ensures value { result ≡ written_of (text_told f.now (length buf.old)) }
    ensures buf_after { buf.new ≡ text_left f.now buf.old }
{
    WrittenBytes::from(text_of(f, buf).map_err(Refusal::InCall))
}

// Plays this value of the next variable.
#[unsafe(no_mangle)]
pub extern "C" fn kb_play(f: &[u8], p: Position, value: u64) -> MovedPosition
    ensures { result ≡ moved_of (play_told f.now p value) (play_left f.now p value) }
{
    moved_shown(p, play(f, p, value as usize))
}

// Takes the last play back.
#[unsafe(no_mangle)]
pub extern "C" fn kb_take_back(f: &[u8], p: Position) -> MovedPosition
    ensures { result ≡ moved_of (take_back_told f.now p) (take_back_left f.now p) }
{
    moved_shown(p, take_back(f, p))
}

// Holds all plays that stand.
#[unsafe(no_mangle)]
pub extern "C" fn kb_lock(f: &[u8], p: Position) -> MovedPosition
    ensures { result ≡ moved_of (lock_told f.now p) (lock_left f.now p) }
{
    moved_shown(p, lock(f, p))
}

// Holds the first `number` plays alone, at most as many as are held.
#[unsafe(no_mangle)]
pub extern "C" fn kb_unlock(f: &[u8], p: Position, number: u64) -> MovedPosition
    ensures { result ≡ moved_of (unlock_told f.now p number) (unlock_left f.now p number) }
{
    moved_shown(p, unlock(f, p, number as usize))
}

// The same play on a session: one record, which the call alters; refused, it stays as it is.
#[unsafe(no_mangle)]
pub extern "C" fn kb_session_play(f: &[u8], s: &mut Position, value: u64) -> CallAnswer
    ensures { (result ≡ answer_of (play_told f.now s.old value))
        × (s.new ≡ play_left f.now s.old value) }
{
    let moved = kb_play(f, *s, value);
    *s = moved.position;
    moved.answer
}

// The same take-back on a session.
#[unsafe(no_mangle)]
pub extern "C" fn kb_session_take_back(f: &[u8], s: &mut Position) -> CallAnswer
    ensures { (result ≡ answer_of (take_back_told f.now s.old))
        × (s.new ≡ take_back_left f.now s.old) }
{
    let moved = kb_take_back(f, *s);
    *s = moved.position;
    moved.answer
}

// The same lock on a session.
#[unsafe(no_mangle)]
pub extern "C" fn kb_session_lock(f: &[u8], s: &mut Position) -> CallAnswer
    ensures { (result ≡ answer_of (lock_told f.now s.old))
        × (s.new ≡ lock_left f.now s.old) }
{
    let moved = kb_lock(f, *s);
    *s = moved.position;
    moved.answer
}

// The same unlock on a session.
#[unsafe(no_mangle)]
pub extern "C" fn kb_session_unlock(f: &[u8], s: &mut Position, number: u64) -> CallAnswer
    ensures { (result ≡ answer_of (unlock_told f.now s.old number))
        × (s.new ≡ unlock_left f.now s.old number) }
{
    let moved = kb_unlock(f, *s, number);
    *s = moved.position;
    moved.answer
}

// The open values of every variable.
#[unsafe(no_mangle)]
pub extern "C" fn kb_open(f: &[u8], p: Position) -> OpenMasks
    ensures { result ≡ opened_of (open_told f.now p) (masks_shown f.now p) (counts_shown f.now p) }
{
    OpenMasks::from(open_values(f, p))
}

// Whether a position is won, under the rule set of this number.
#[unsafe(no_mangle)]
pub extern "C" fn kb_judge(
    f: &[u8],
    plays: u64,
    depth: u64,
    a: u64,
    b: u64,
    c: u64,
    d: u64,
    set: u64,
) -> Judgement
    ensures { result ≡ judgement_of (judge_told f.now (unpack plays depth a b c d) set held_room) }
{
    let mut room = [0u16; ROOM];
    let p = unpacked(plays, depth, a, b, c, d);
    Judgement::from(judge(f, p, set as usize, &mut room))
}

// The winning values of the next variable, under the rule set of this number.
#[unsafe(no_mangle)]
pub extern "C" fn kb_mark(
    f: &[u8],
    plays: u64,
    depth: u64,
    a: u64,
    b: u64,
    c: u64,
    d: u64,
    set: u64,
) -> Marks
    ensures { result ≡ marks_of (mark_told f.now (unpack plays depth a b c d) set held_room) }
{
    let mut room = [0u16; ROOM];
    let p = unpacked(plays, depth, a, b, c, d);
    Marks::from(mark(f, p, set as usize, &mut room))
}

// The same of a position by value, in lent room.
#[unsafe(no_mangle)]
pub extern "C" fn kb_judge_in(f: &[u8], p: Position, set: u64, room: &mut [u16]) -> Judgement
    ensures value { result ≡ judgement_of (judge_told f.now p set (length room.old)) }
    ensures room_after { room.new ≡ judge_left f.now p set room.old }
{
    Judgement::from(judge(f, p, set as usize, room))
}

#[unsafe(no_mangle)]
pub extern "C" fn kb_mark_in(f: &[u8], p: Position, set: u64, room: &mut [u16]) -> Marks
    ensures value { result ≡ marks_of (mark_told f.now p set (length room.old)) }
    ensures room_after { room.new ≡ mark_left f.now p set room.old }
{
    Marks::from(mark(f, p, set as usize, room))
}

// What a search finds, under the rule set of this number.
#[unsafe(no_mangle)]
pub extern "C" fn kb_search(f: &[u8], p: Position, set: u64) -> SearchFindings
    ensures { result ≡ searched_of (search_found f.now p set held_room) }
{
    let mut room = [0u16; ROOM];
    SearchFindings::from(search(f, p, set as usize, &mut room))
}

// The marks and the open values that calls reach, each a byte.
#[unsafe(no_mangle)]
pub extern "C" fn kb_replay(f: &[u8], calls: &[u8], set: u64) -> ReplayedCalls
    ensures { result ≡ replay_of f.now calls.now set }
{
    let mut room = [0u16; ROOM];
    ReplayedCalls::from(replay(f, calls, set as usize, &mut room))
}

// Rule 1 on a lent list.
#[unsafe(no_mangle)]
pub extern "C" fn kb_arc(f: &[u8], list: &mut [u16]) -> RuledList
    ensures value { result ≡ ruled_of (arc_told f.now list.old) }
    ensures list_after { list.new ≡ arc_left f.now list.old }
{
    RuledList::from(arc(f, list))
}

// Rule 2, for value a of variable x.
#[unsafe(no_mangle)]
pub extern "C" fn kb_forward_check(f: &[u8], list: &mut [u16], x: u64, a: u64) -> CheckedList
    ensures value { result ≡ checked_of (forward_told f.now list.old x a) }
    ensures list_after { list.new ≡ forward_left f.now list.old x a }
{
    CheckedList::from(forward_check(f, list, x as usize, a as usize))
}

// Rule 3, at variable x.
#[unsafe(no_mangle)]
pub extern "C" fn kb_look_ahead(f: &[u8], list: &[u16], x: u64) -> LookedAhead
    ensures { result ≡ looked_of (ahead_told f.now list.now x) }
{
    LookedAhead::from(look_ahead(f, list, x as usize))
}

// Rule 4, at variable x.
#[unsafe(no_mangle)]
pub extern "C" fn kb_pure(f: &[u8], list: &[u16], x: u64) -> NamedValues
    ensures { result ≡ named_of (pure_told f.now list.now x) (pure_shown f.now list.now x) }
{
    NamedValues::from(pure(f, list, x as usize))
}

// Rule 5, at variable x.
#[unsafe(no_mangle)]
pub extern "C" fn kb_interchangeable(f: &[u8], list: &[u16], x: u64) -> ValueMask
    ensures { result ≡ values_of (interchangeable_told f.now list.now x) }
{
    ValueMask::from(interchangeable(f, list, x as usize))
}

// Writes the text of the problem's formula.
#[unsafe(no_mangle)]
pub extern "C" fn kb_formula(f: &[u8], buf: &mut [u8]) -> WrittenBytes
    ensures value { result ≡ written_of (formula_told f.now (length buf.old)) }
    ensures buf_after { buf.new ≡ formula_left f.now buf.old }
{
    WrittenBytes::from(write_formula(f, buf))
}

// Writes it and judges that text.
#[unsafe(no_mangle)]
pub extern "C" fn kb_judge_formula(f: &[u8], buf: &mut [u8]) -> FormulaJudgement
    ensures value { result ≡ formula_judgement_of (judge_formula_told f.now (length buf.old)) }
    ensures buf_after { buf.new ≡ formula_left f.now buf.old }
{
    FormulaJudgement::from(judge_formula(f, buf))
}

// Lists the groups of variables that hang together.
#[unsafe(no_mangle)]
pub extern "C" fn kb_groups(f: &[u8]) -> GroupList
    ensures { result ≡ group_list_of (groups_told f.now) (groups_listed f.now) }
{
    GroupList::from(groups(f))
}

// Writes one group as a problem file.
#[unsafe(no_mangle)]
pub extern "C" fn kb_group(f: &[u8], group: u64, buf: &mut [u8]) -> WrittenBytes
    ensures value { result ≡ written_of (write_group_told f.now group (length buf.old)) }
    ensures buf_after { buf.new ≡ write_group_left f.now group buf.old }
{
    WrittenBytes::from(write_group(f, group as usize, buf))
}
