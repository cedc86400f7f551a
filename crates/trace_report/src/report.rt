// What is told of a trace.
ghost use Rattle.std.specs.Prelude.{◌≡◌, ◌+◌, ◌≤◌, ◌++◌, ℕ, List, length, decimal, IfOk, IfErr};
ghost use Rattle.trace_report.specs.Traces.{Touch};
ghost use Rattle.trace_report.specs.Reports.{counts_line, report};
ghost use Rattle.trace_report.specs.Counting.{HaveMade, HaveServed};

use crate::machines::Machines;
use policy_sim::Counts;
use shell_text::Line;
use site::Stop;

// Appends a line with a machine's name and what it has counted.
fn push_counts(line: &mut Line, name: &[u8], counts: &Counts)
    requires name { length name.now ≤ 6 }
    requires room { length line.old + 171 ≤ 540 }
    ensures text { line.new ≡ line.old ++ counts_line name.now counts.now }
    ensures len { length line.new ≤ length line.old + 171 }
{
    line.push(name);
    push_count(line, b" touches ", counts.touches);
    push_count(line, b" pool ", counts.pool);
    push_count(line, b" flash ", counts.flash);
    push_count(line, b" disk ", counts.disk);
    push_count(line, b" staged ", counts.staged);
    push_count(line, b" pushed ", counts.pushed);
    line.push(b"\n");
}

// Appends a word with its spaces, and a count.
fn push_count(line: &mut Line, word: &[u8], count: u64)
    requires room { length line.old + length word.now + 20 ≤ 540 }
    ensures text { line.new ≡ line.old ++ word.now ++ decimal count }
    ensures len { length line.new ≤ length line.old + length word.now + 20 }
{
    line.push(word);
    line.push_number(count);
}

/// A line for each of three machines, once all that they have heard is handed to them. The one error is want of memory.
pub fn report_of(machines: &mut Machines) -> Result<Line, Stop>
    requires few { (n : ℕ) × (n ≤ 1000000) × HaveMade n machines.old }
    ensures report { (groups pool : ℕ) → (touches : List Touch) → HaveServed groups pool touches machines.old
        → IfOk result (λ text. text ≡ report groups pool touches) }
    ensures memory { IfErr result (λ stop. stop ≡ Stop.Memory) }
{
    machines.serve()?;
    let mut line = Line::new();
    push_counts(&mut line, b"fifo", &machines.fifo.counts());
    push_counts(&mut line, b"group", &machines.group.counts());
    push_counts(&mut line, b"chance", &machines.chance.counts());
    Ok(line)
}
