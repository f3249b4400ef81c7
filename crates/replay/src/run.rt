// The run of a log's bytes on a table's.
ghost use Rattle.std.specs.Prelude.{◌≡◌, ◌+◌, ◌*◌, ◌<◌, length};
ghost use Rattle.tasks.specs.Content.{content_of};
ghost use Rattle.history.specs.Report.{report};
ghost use Rattle.history.specs.OnMachine.{machine_engine};
ghost use Rattle.logs.specs.LogBytes.{entries_in, reports_to};
ghost use Rattle.running.specs.Entered.{Fitting};
ghost use Rattle.running.specs.RunCode.{taken_to, Started, Runs};
ghost use Rattle.replay.specs.declared.run.Ran.{Ran};
ghost use Rattle.replay.specs.Ran.{ran_of, run_leaves};

use entry::Run;
use fields::columns::split;
use logs::read::read_entries;
use onward::Setup;
use table::judge;
use tasks::{Plan, Refusal, Rule, limits};

// A log run: Accepted, with how many entries were taken and how many refused, or refused, with zeros, which document 01 asks for, so that it is no
// Result.
#[derive(Clone, Copy)]
pub struct Ran {
    pub answer: Result<(), Refusal>,
    pub taken: usize,
    pub refused: usize,
}

// All entries of a log, one after the other, and then so many ticks that nothing is pending. Answers how many entries were taken.
fn run_all(count: usize, on: &Setup, out: &mut [u8]) -> usize
    requires { (p : Plan) × Started p out.old on.now.log.now count on.now.cores
        on.now.tasks on.now.columns.separation on.now.columns.budget on.now.columns.offset }
    ensures { Runs on.now.log.now count on.now.cores
        on.now.tasks on.now.columns.separation on.now.columns.budget on.now.columns.offset out.old result out.new }
{
    let mut run = Run::new();
    let mut taken = 0;
    for e in 0..count {
        taken += usize::from(run.enter(e, on, out));
    }
    // No job is pending so many ticks after the last release.
    let to = run.pending.clock + limits::BOUND_HIGH;
    run.pending.advance(to, on, out);
    taken
}

// Runs a log, which fits the lent answer, on an accepted plan. Answers how many entries were taken.
fn replay(plan: Plan, log: &[u8], count: usize, out: &mut [u8]) -> usize
    requires { Fitting plan (entries_in log.now) out.old × (count ≡ length (entries_in log.now))
        × (length log.now ≡ 2 + 9 * length (entries_in log.now)) }
    ensures { (result ≡ taken_to plan (entries_in log.now) (length (entries_in log.now)))
        × (out.new
        ≡ reports_to (report (machine_engine (content_of plan).tasks) (entries_in log.now)) (length (entries_in log.now))
        out.old) }
{
    let on = Setup {
        log,
        cores: plan.cores,
        tasks: plan.tasks,
        columns: split(plan.task, plan.tasks),
    };
    run_all(count, &on, out)
}

// "lengths and counts are 0"
fn refused(answer: Result<(), Refusal>) -> Ran
    ensures { ◌≡◌ {A = Ran} result (record { answer = answer; taken = 0; refused = 0 }) }
{
    Ran {
        answer,
        taken: 0,
        refused: 0,
    }
}

// Runs a log on a table, and writes 8 bytes for each entry. "log run and writer take it apart by let .. else and pass the refusal on."
pub fn run_log(table: &[u8], log: &[u8], out: &mut [u8]) -> Ran
    ensures { (result ≡ ran_of table.now log.now (length out.old))
        × (out.new ≡ run_leaves table.now log.now out.old)
        × (result.taken + result.refused < 65536) }
{
    let judgement = judge(table);
    let judged = judgement.answer;
    let Ok(()) = judged else {
        return refused(judged);
    };
    let entries = read_entries(log);
    let Ok(count) = entries else {
        return refused(entries.map(|_| ()));
    };
    if out.len() < 8 * count {
        return refused(Err(Rule::AnswerTooShort.at(0)));
    }
    let taken = replay(judgement.plan, log, count, out);
    Ran {
        answer: Ok(()),
        taken,
        refused: count - taken,
    }
}
