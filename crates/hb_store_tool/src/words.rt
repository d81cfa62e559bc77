//! Which steps do the words of the command line ask for?

use crate::problem::Problem;
use crate::steps::Step;
use std::alloc::Global;

/// The steps that the words ask for, in order.
pub(crate) fn steps_of<'a>(alloc: Global, words: &[&'a str]) -> Result<Vec<Step<'a>>, Problem> {
    let mut steps = Vec::new(alloc);
    let mut at = 0usize;
    for _ in 0..words.len() {
        if at >= words.len() {
            return Ok(steps);
        }
        let (step, count) = first_step(&words[at..])?;
        steps.push(step)?;
        at = at.saturating_add(count);
    }
    Ok(steps)
}

/// The step that the first words ask for, and how many words those are.
fn first_step<'a>(words: &[&'a str]) -> Result<(Step<'a>, usize), Problem> {
    match *words {
        ["fill", first, count, ..] => {
            let (first, count) = (number(first)?, number(count)?);
            Ok((Step::Fill { first, count }, 3))
        }
        ["list", name, ..] => Ok((Step::List(name), 2)),
        ["get", id, ..] => Ok((Step::Get(number(id)?), 2)),
        ["compare", count, ..] => Ok((Step::Compare(number(count)?), 2)),
        _ => Err(Problem::Words),
    }
}

fn number(word: &str) -> Result<u32, Problem> {
    word.parse().map_err(|_| Problem::Words)
}
