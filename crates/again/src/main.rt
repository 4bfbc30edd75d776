// Reads the text of factors and then right sides, and prints the answer of each, or why it has none.
#![tactic(auto)]

use input::run_program;
use text_calls::again_text;

fn main(rt: HostRuntime) -> anyhow::Result<()> {
    run_program(&rt, |heap, text| again_text(heap, text))
}
