// The answer's bytes: eight for each entry of the log, kind and value, 4 bytes each.
ghost use Rattle.std.specs.Prelude.{◌≡◌, ◌++◌, ◌+◌, ◌*◌, ◌≤◌, length};
ghost use Rattle.std.proofs.lemmas.List.Edits.{sets};
ghost use Rattle.numbers.specs.Bytes.{digits};
ghost use Rattle.history.specs.Report.{finished, refusal};
ghost use Rattle.logs.specs.LogBytes.{report_bytes};

use numbers::put4;

// "kind 1 and finish tick, or kind 2 and refusal number"
const FINISHED: u32 = 1;

const REFUSED: u32 = 2;

fn put_report(out: &mut [u8], e: usize, kind: u32, value: u32)
    requires { 8 * e + 8 ≤ length out.old }
    ensures { out.new ≡ sets out.old (8 * e) (digits 4 kind ++ digits 4 value) }
{
    let at = 8 * e;
    put4(out, at, kind);
    put4(out, at + 4, value);
}

// Entry e was taken, and its job finished with this tick.
pub fn put_finished(out: &mut [u8], e: usize, tick: u32)
    requires { 8 * e + 8 ≤ length out.old }
    ensures { out.new ≡ sets out.old (8 * e) (report_bytes (finished tick)) }
{
    put_report(out, e, FINISHED, tick);
}

// Entry e was refused with this number.
pub fn put_refused(out: &mut [u8], e: usize, number: u8)
    requires { 8 * e + 8 ≤ length out.old }
    ensures { out.new ≡ sets out.old (8 * e) (report_bytes (refusal number)) }
{
    put_report(out, e, REFUSED, number as u32);
}
