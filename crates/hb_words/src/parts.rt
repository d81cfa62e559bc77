//! Which parts has a command line?

/// The values behind the word of a command.
#[derive(Clone, Copy)]
pub(crate) enum Values<'a> {
    Zero,
    One(&'a str),
    Two(&'a str, &'a str),
}

/// The word of a command and its values.
#[derive(Clone, Copy)]
pub(crate) struct Parts<'a> {
    pub(crate) name: &'a str,
    pub(crate) values: Values<'a>,
}
