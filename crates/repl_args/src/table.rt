/// An option: its name, and the kind of its value.
#[derive(Clone, Copy)]
pub struct OptionForm<'a, K> {
    /// The word that stands before the value.
    pub name: &'a str,
    /// What the value may be.
    pub kind: K,
}

/// What stands after the arguments.
#[derive(Clone, Copy)]
pub enum Tail<'a, K> {
    /// Nothing more.
    Nothing,
    /// At most one word more, of this kind.
    Maybe(K),
    /// Names and values of these options in turn, in any order, each name once at most.
    Options(&'a [OptionForm<'a, K>]),
}

/// A form of a command line.
#[derive(Clone, Copy)]
pub struct Form<'a, K, C> {
    /// What the line asks for.
    pub command: C,
    /// The first word of the form.
    pub name: &'a str,
    /// What the words after it are, in order.
    pub arguments: &'a [K],
    /// What stands after those.
    pub tail: Tail<'a, K>,
}

/// The forms of a program's command lines.
#[derive(Clone, Copy)]
pub struct Table<'a, K, C> {
    /// The option that may stand before a command's name, as `-D DIR`.
    pub lead: Option<OptionForm<'a, K>>,
    /// The forms, of which there is one at least, each with a name of its own, which is not the lead's either.
    pub forms: &'a [Form<'a, K, C>],
}
