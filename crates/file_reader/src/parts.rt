// What the tests of a whole file hand out.
use file_layout::Variables;
use file_records::Ternaries;

// Its variables and its three-way constraints.
#[derive(Clone, Copy)]
pub struct Parts<'a> {
    pub variables: Variables<'a>,
    pub ternaries: Ternaries,
}
