// The functions that the desktop planner calls, over byte slices. `dahomike_c` exports each to C under its name.
#![tactic(auto)]

ghost use Rattle.std.specs.Prelude.{◌≡◌, ◌++◌, ◌+◌, ◌*◌, ◌≤◌, ◌<◌, length};
ghost use Rattle.std.proofs.lemmas.List.Edits.{sets};
ghost use Rattle.numbers.specs.Bytes.{digits, entries};
ghost use Rattle.conversion.specs.Converted.{converted_to};
ghost use Rattle.replay.specs.Ran.{run_leaves};
ghost use Rattle.tasks.specs.Answer.{Accepted};
ghost use Rattle.dahomike_answer.specs.Number.{answer_number, told_number};
ghost use Rattle.dahomike.specs.Answers.{judge_number, judge_leaves, counted_number, counted_leaves, wish_number, wish_leaves, run_number, sentence_number, convert_number, entry_size, entry_bytes, entry_of, room_test, Reportable};
ghost use Rattle.dahomike.specs.ReportLaws.{Reported};
ghost use Rattle.tasks.specs.Content.{Content};
ghost use Rattle.tasks.specs.Tests.{unless_refused};
ghost use Rattle.wording.specs.Told.{sentence_leaves};

use converter::convert;
use dahomike_answer::answer;
use decimal::put_words;
use numbers::put4;
use replay::run_log;
use sentence::sentence;
use sheet::wish;
use table::judge;
use tasks::bound::{bound, core_for_each};
use tasks::{Plan, Refusal, Rule};

// What an entry says of a task.
#[derive(Clone, Copy)]
struct Entry {
    offset: u32,
    slack: u32,
    bound: u32,
}

// Slack and bound, 4 bytes each, from `at` on.
fn put_pair(out: &mut [u8], at: usize, of: Entry)
    requires { at + 8 ≤ length out.old }
    ensures { out.new ≡ sets out.old at (digits 4 of.slack ++ digits 4 of.bound) }
{
    put4(out, at, of.slack);
    put4(out, at + 4, of.bound);
}

// The entry of task `i` among entries of one size: slack and bound, and before them the offset where it was found for a wish.
fn put_entry(out: &mut [u8], i: usize, of: Entry, wishes: bool)
    requires { (i < 16) × (entry_size wishes * i + entry_size wishes ≤ length out.old) }
    ensures { out.new ≡ sets out.old (entry_size wishes * i) (entry_bytes wishes of.offset of.slack of.bound) }
{
    if wishes {
        put4(out, 12 * i, of.offset);
        put_pair(out, 12 * i + 4, of);
        return;
    }
    put_pair(out, 8 * i, of);
}

// "The C judgement writes slack and bound for each loop"
fn report(plan: Plan, out: &mut [u8], wishes: bool)
    requires { Reportable wishes plan (length out.old) }
    ensures { out.new ≡ sets out.old 0 (entries (entry_of wishes plan) plan.tasks) }
{
    let tasks = plan.tasks;
    let task = plan.task;
    let slack = plan.slack;
    let each = core_for_each(plan.cores, tasks);
    for i in 0..tasks {
        let t = task[i];
        let x = slack[i];
        let b = bound(each, t, x) as u32;
        let entry = Entry {
            offset: t.offset,
            slack: x,
            bound: b,
        };
        put_entry(out, i, entry, wishes);
    }
}

// Eight bytes for a judgement, twelve for a wish.
fn entry_size(wishes: bool) -> usize
    ensures { result ≡ entry_size wishes }
{
    if wishes {
        return 12;
    }
    8
}

// A plan's answer: its number of tasks, and each task's entry in `out`; or the refusal, 24 last.
fn answered(
    met: Result<(), Refusal>,
    plan: Plan,
    out: &mut [u8],
    wishes: bool,
) -> Result<u64, Refusal>
    requires { met ≡ Accepted → (c : Content) × Reported c plan }
    ensures { (told_number result ≡ answer_number (room_test wishes met plan.tasks (length out.old)) plan.tasks)
        × (out.new ≡ unless_refused (room_test wishes met plan.tasks (length out.old)) (sets out.old 0 (entries (entry_of wishes plan) plan.tasks)) out.old) }
{
    met?;
    let tasks = plan.tasks;
    if out.len() < entry_size(wishes) * tasks {
        return Err(Rule::BufferTooShort.at(0));
    }
    report(plan, out, wishes);
    Ok(tasks as u64)
}

// The judgement of a table: n and each task's slack and bound, or the refusal.
pub fn dahomike_judge(table: &[u8], out: &mut [u8]) -> u64
    ensures { (result ≡ judge_number table.now (length out.old)) × (out.new ≡ judge_leaves table.now out.old) }
{
    let judgement = judge(table);
    answer(answered(judgement.answer, judgement.plan, out, false))
}

// Offsets and slack for a wish sheet: n and each task's offset, slack and bound, or the refusal.
pub fn dahomike_wish(sheet: &[u8], out: &mut [u8]) -> u64
    ensures { (result ≡ wish_number sheet.now (length out.old)) × (out.new ≡ wish_leaves sheet.now out.old) }
{
    let wished = wish(sheet);
    answer(answered(wished.answer, wished.plan, out, true))
}

// How many loops are counted in a table's judgement, and a byte for each in `out`; or the refusal, 24 last.
fn counted(table: &[u8], out: &mut [u8]) -> Result<u64, Refusal>
    ensures { (told_number result ≡ counted_number table.now (length out.old)) × (out.new ≡ counted_leaves table.now out.old) }
{
    let judgement = judge(table);
    judgement.answer?;
    let count = judgement.count;
    if out.len() < count {
        return Err(Rule::BufferTooShort.at(0));
    }
    let counted = judgement.counted;
    put_words(out, 0, &counted[..count]);
    Ok(count as u64)
}

// The loops counted in the judgement of a table: how many, and a byte for each, largest weight first; or the refusal.
pub fn dahomike_counted(table: &[u8], out: &mut [u8]) -> u64
    ensures { (result ≡ counted_number table.now (length out.old)) × (out.new ≡ counted_leaves table.now out.old) }
{
    answer(counted(table, out))
}

// A run's two counts in one number, or the refusal.
fn run(table: &[u8], log: &[u8], out: &mut [u8]) -> Result<u64, Refusal>
    ensures { (told_number result ≡ run_number table.now log.now (length out.old))
        × (out.new ≡ run_leaves table.now log.now out.old) }
{
    let ran = run_log(table, log, out);
    ran.answer?;
    Ok((ran.taken as u64) + 65536 * (ran.refused as u64))
}

// The run of a log on a table: taken + 65,536 × refused and each entry's 8 bytes, or the refusal.
pub fn dahomike_run_log(table: &[u8], log: &[u8], out: &mut [u8]) -> u64
    ensures { (result ≡ run_number table.now log.now (length out.old))
        × (out.new ≡ run_leaves table.now log.now out.old) }
{
    answer(run(table, log, out))
}

// A refusal as one English sentence: how long it is, and its bytes; or 25.
pub fn dahomike_sentence(number: u32, index: u32, value: u64, out: &mut [u8]) -> u64
    ensures { (result ≡ sentence_number number index value (length out.old))
        × (out.new ≡ sentence_leaves number index value out.old) }
{
    let told = sentence(number, index, value, out);
    answer(told.map(|length| length as u64))
}

// A table in the other edition: how many bytes it has, and the bytes; or the refusal.
pub fn dahomike_convert(table: &[u8], edition: u32, out: &mut [u8]) -> u64
    ensures { (result ≡ convert_number edition table.now (length out.old))
        × (out.new ≡ converted_to edition table.now out.old) }
{
    let written = convert(table, edition, out);
    answer(written.map(|count| count as u64))
}
