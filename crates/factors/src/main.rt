// Reads the text of a system and prints the text of its factors, or why it has none.
#![tactic(auto)]

use input::run_program;
use text_calls::factors_text;

fn main(rt: HostRuntime) -> anyhow::Result<()> {
    run_program(&rt, |heap, text| factors_text(heap, text))
}
