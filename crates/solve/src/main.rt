// Reads the text of a system and prints its answer, or why it has none.
#![tactic(auto)]

use input::run_program;
use text_calls::solve_text;

fn main(rt: HostRuntime) -> anyhow::Result<()> {
    run_program(&rt, |heap, text| solve_text(heap, text))
}
