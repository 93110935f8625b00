//! Which tokens are a list, where others leave the grammar, and what those of a list say.
ghost use Rattle.std.specs.Prelude.{◌≡◌, drop, OnOk, IfErr, IfOk};
ghost use Rattle.repl_text.specs.Language.{StopsAt};
ghost use Rattle.repl_names.specs.Grammar.{IsSaid};
ghost use Rattle.repl_names.specs.Walk.{is_name, step, may_end, kind_at, shape_from, said_names};

use crate::list::Method;
use crate::token::{Kind, Token};
use repl_text::Text;
use std::alloc::{AllocError, Global};

/// How far tokens have come in the grammar.
#[derive(Clone, Copy)]
enum State {
    /// No token is read.
    Start,
    /// After a number that stands first: a name, or how many of those that follow.
    FirstNumber,
    /// After a name that stands in no parentheses.
    Name,
    /// After a comma that follows it.
    Comma,
    /// After `FIRST` or `ANY`.
    Keyword,
    /// After the number that follows it.
    Number,
    /// In parentheses, where a name is to follow.
    Opened,
    /// In parentheses, after a name.
    Inside,
    /// After the closing parenthesis.
    Closed,
}

impl Kind {
    /// Whether a token of this kind is a name.
    fn is_name(self) -> bool
        ensures { result ≡ is_name self }
    {
        matches!(self, Kind::Word | Kind::Number | Kind::Quoted | Kind::Star)
    }
}

impl State {
    /// The state after a token of this kind, or `None` where no list goes on with it.
    fn next(self, kind: Kind) -> Option<State>
        ensures { result ≡ step self kind }
    {
        match self {
            State::Start => match kind {
                Kind::Number => Some(State::FirstNumber),
                Kind::First | Kind::Any => Some(State::Keyword),
                _ => kind.is_name().then_some(State::Name),
            },
            State::FirstNumber => match kind {
                Kind::Comma => Some(State::Comma),
                Kind::Opening => Some(State::Opened),
                _ => None,
            },
            State::Name => matches!(kind, Kind::Comma).then_some(State::Comma),
            State::Comma => kind.is_name().then_some(State::Name),
            State::Keyword => matches!(kind, Kind::Number).then_some(State::Number),
            State::Number => matches!(kind, Kind::Opening).then_some(State::Opened),
            State::Opened => kind.is_name().then_some(State::Inside),
            State::Inside => match kind {
                Kind::Comma => Some(State::Opened),
                Kind::Closing => Some(State::Closed),
                _ => None,
            },
            State::Closed => None,
        }
    }

    /// Whether a list may end here.
    fn may_end(self) -> bool
        ensures { result ≡ may_end self }
    {
        matches!(
            self,
            State::Start | State::FirstNumber | State::Name | State::Closed
        )
    }
}

/// Judges whether the tokens are a list. A fault is the index of the first token with which no list goes on,
/// or their number where one goes on with all of them.
pub(crate) fn judge(tokens: &[Token]) -> Result<(), usize>
    ensures said { OnOk result (IsSaid tokens.now) }
    ensures refused { IfErr result (λ index. StopsAt IsSaid tokens.now index) }
{
    let mut state = State::Start;
    for (index, token) in tokens.iter().enumerate() {
        let Some(next) = state.next(token.kind) else {
            return Err(index);
        };
        state = next;
    }
    if state.may_end() {
        Ok(())
    } else {
        Err(tokens.len())
    }
}

/// What the tokens of a list say, but for the names themselves.
#[derive(Clone, Copy)]
pub(crate) struct Shape {
    pub(crate) method: Method,
    /// The index of the number, where one is said.
    pub(crate) number: Option<usize>,
    /// The index of the first name.
    pub(crate) names: usize,
}

/// What these tokens say, if they are a list.
pub(crate) fn shape_of(tokens: &[Token]) -> Shape
    ensures { result ≡ shape_from (kind_at tokens.now 0) (kind_at tokens.now 1) }
{
    let (method, number, names) = match (kind_at(tokens, 0), kind_at(tokens, 1)) {
        (Some(Kind::First), _) => (Method::First, Some(1), 3),
        (Some(Kind::Any), _) => (Method::Any, Some(1), 3),
        (_, Some(Kind::Opening)) => (Method::First, Some(0), 2),
        _ => (Method::First, None, 0),
    };
    Shape {
        method,
        number,
        names,
    }
}

/// The kind of the token at the index, where there is one.
fn kind_at(tokens: &[Token], index: usize) -> Option<Kind>
    ensures { result ≡ kind_at tokens.now index }
{
    tokens.get(index).map(|token| token.kind)
}

/// The names among the tokens from `start` on, which are not copied. Takes memory for their list.
pub(crate) fn names_from(
    alloc: Global,
    tokens: Vec<Token>,
    start: usize,
) -> Result<Vec<Text>, AllocError>
    ensures { IfOk result (λ names. names.items ≡ said_names (drop start tokens.items)) }
{
    tokens
        .into_iter()
        .skip(start)
        .filter(|token| token.kind.is_name())
        .map(|token| token.text)
        .collect(alloc)
}
