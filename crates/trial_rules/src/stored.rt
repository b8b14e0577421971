// The stored cases of the five rules.
ghost use Rattle.std.specs.Prelude.{◌<◌};

use crate::calls::{Rule, called};
use trial_vectors::{Stored, byte};

// A file of n variables, a list, a variable and a value; what the rules tell, and the lists that arc and the forward check leave.
#[derive(Clone, Copy)]
pub struct Case<'a> {
    file: &'a [u8],
    n: usize,
    list: [u16; 32],
    arc: usize,
    arc_list: [u16; 32],
    variable: usize,
    value: usize,
    forward: usize,
    forward_list: [u16; 32],
    ahead: usize,
    pure: usize,
    interchangeable: usize,
}

impl<'a> Case<'a> {
    pub fn next(s: &mut Stored<'a>) -> Case<'a> {
        let file = s.file();
        let n = byte(file, 2);
        Case {
            file,
            n,
            list: s.words(n),
            arc: s.byte(),
            arc_list: s.words(n),
            variable: s.byte(),
            value: s.byte(),
            forward: s.byte(),
            forward_list: s.words(n),
            ahead: s.byte(),
            pure: s.word(),
            interchangeable: s.word(),
        }
    }

    // What the rule tells, and the list that it leaves.
    fn stored(self, rule: Rule) -> (usize, [u16; 32]) {
        let list = self.list;
        let arc_list = self.arc_list;
        let forward_list = self.forward_list;
        match rule {
            Rule::Arc => (self.arc, arc_list),
            Rule::ForwardCheck => (self.forward, forward_list),
            Rule::LookAhead => (self.ahead, list),
            Rule::Pure => (self.pure, list),
            Rule::Interchangeable => (self.interchangeable, list),
        }
    }

    pub fn agrees(self, rule: Rule) -> bool {
        let (number, left) = self.stored(rule);
        let mut list = self.list;
        let answer = called(
            rule,
            self.file,
            &mut list,
            self.n,
            self.variable,
            self.value,
        );
        answer == Ok((number, 0)) && list == left
    }
}
