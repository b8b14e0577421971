// The five calls on the first masks of a list.
use refusal::Refusal;
use rule_entries::{arc, forward_check, interchangeable, look_ahead, pure};
use trial_vectors::Answer;

#[derive(Clone, Copy, PartialEq, Eq)]
pub enum Rule {
    Arc,
    ForwardCheck,
    LookAhead,
    Pure,
    Interchangeable,
}

// A loss or none, or a mask, as a number. What a loss names is not in rules.bin.
fn told(rule: Rule, f: &[u8], list: &mut [u16], x: usize, a: usize) -> Result<usize, Refusal> {
    match rule {
        Rule::Arc => Ok(arc(f, list)? as usize),
        Rule::ForwardCheck => Ok(forward_check(f, list, x, a)?.is_some() as usize),
        Rule::LookAhead => Ok(look_ahead(f, list, x)?.is_some() as usize),
        Rule::Pure => Ok(pure(f, list, x)?.pure as usize),
        Rule::Interchangeable => Ok(interchangeable(f, list, x)? as usize),
    }
}

// The call of this rule on the first n masks.
pub fn called(rule: Rule, f: &[u8], list: &mut [u16; 32], n: usize, x: usize, a: usize) -> Answer {
    Ok((told(rule, f, &mut list[..n.min(32)], x, a)?, 0))
}
