// The C functions of the desktop planner, over byte slices: a pointer and a length each. Each calls the function of its name in `dahomike`, which
// other crates can use, and keeps the same contract.
#![tactic(auto)]

ghost use Rattle.std.specs.Prelude.{◌≡◌, length};
ghost use Rattle.conversion.specs.Converted.{converted_to};
ghost use Rattle.replay.specs.Ran.{run_leaves};
ghost use Rattle.wording.specs.Told.{sentence_leaves};
ghost use Rattle.dahomike.specs.Answers.{judge_number, judge_leaves, counted_number, counted_leaves, wish_number, wish_leaves, run_number, sentence_number, convert_number};

// The judgement of a table: n and each task's slack and bound, or the refusal.
#[unsafe(no_mangle)]
pub extern "C" fn dahomike_judge(table: &[u8], out: &mut [u8]) -> u64
    ensures { (result ≡ judge_number table.now (length out.old)) × (out.new ≡ judge_leaves table.now out.old) }
{
    dahomike::dahomike_judge(table, out)
}

// Offsets and slack for a wish sheet: n and each task's offset, slack and bound, or the refusal.
#[unsafe(no_mangle)]
pub extern "C" fn dahomike_wish(sheet: &[u8], out: &mut [u8]) -> u64
    ensures { (result ≡ wish_number sheet.now (length out.old)) × (out.new ≡ wish_leaves sheet.now out.old) }
{
    dahomike::dahomike_wish(sheet, out)
}

// The loops counted in the judgement of a table: how many, and a byte for each, largest weight first; or the refusal.
#[unsafe(no_mangle)]
pub extern "C" fn dahomike_counted(table: &[u8], out: &mut [u8]) -> u64
    ensures { (result ≡ counted_number table.now (length out.old)) × (out.new ≡ counted_leaves table.now out.old) }
{
    dahomike::dahomike_counted(table, out)
}

// The run of a log on a table: taken + 65,536 × refused and each entry's 8 bytes, or the refusal.
#[unsafe(no_mangle)]
pub extern "C" fn dahomike_run_log(table: &[u8], log: &[u8], out: &mut [u8]) -> u64
    ensures { (result ≡ run_number table.now log.now (length out.old))
        × (out.new ≡ run_leaves table.now log.now out.old) }
{
    dahomike::dahomike_run_log(table, log, out)
}

// A refusal as one English sentence: how long it is, and its bytes; or 25.
#[unsafe(no_mangle)]
pub extern "C" fn dahomike_sentence(number: u32, index: u32, value: u64, out: &mut [u8]) -> u64
    ensures { (result ≡ sentence_number number index value (length out.old))
        × (out.new ≡ sentence_leaves number index value out.old) }
{
    dahomike::dahomike_sentence(number, index, value, out)
}

// A table in the other edition: how many bytes it has, and the bytes; or the refusal.
#[unsafe(no_mangle)]
pub extern "C" fn dahomike_convert(table: &[u8], edition: u32, out: &mut [u8]) -> u64
    ensures { (result ≡ convert_number edition table.now (length out.old))
        × (out.new ≡ converted_to edition table.now out.old) }
{
    dahomike::dahomike_convert(table, edition, out)
}
