// The lines of runs.
use crate::fault::Fault;
use crate::piece::push_line;
use prolog_session::Runs;
use std::alloc::Global;

/// A line for each run: `E L steps S looks K fronts F F ..`, with its engine, its line in the text, its steps, its looks, and its
/// fronts in order.
pub fn runs_text(alloc: Global, runs: &Runs) -> Result<Vec<u8>, Fault> {
    let mut text = Vec::new(alloc);
    for run in runs.items() {
        let engine = run.engine;
        let line = run.line;
        let steps = run.steps;
        let looks = run.tally.looks;
        let mut said = format!(in alloc; "{engine} {line} steps {steps} looks {looks} fronts")?;
        for front in run.fronts.items() {
            said.push_str(format!(in alloc; " {front}")?.as_str())?;
        }
        push_line(&mut text, said.as_str())?;
    }
    Ok(text)
}
