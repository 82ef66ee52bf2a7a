use crate::mode::{Mode, Order, Quant, Rel};
use ms_list::{At, Boxed, List, Name, Text};

/// A number or the name of a constant.
#[derive(Drop)]
pub enum Int {
    Number(u64),
    Constant(Name),
}

/// A number or a constant with its place, and whether `-` stands before it.
#[derive(Drop)]
pub struct PlacedInt {
    pub at: At,
    pub value: Int,
    pub minus: bool,
}

/// A variable where it is declared or bound, with its restriction.
#[cycle(expressions)]
#[derive(Drop)]
pub struct Bound {
    pub at: At,
    pub order: Order,
    pub name: Name,
    pub domain: Option<Boxed<Expr>>,
}

/// A name of a `let` with its right side.
#[cycle(expressions)]
#[derive(Drop)]
pub struct LetPart {
    pub at: At,
    pub name: Name,
    pub value: Expr,
}

/// `left -> right` of an import.
#[derive(Drop)]
pub struct Rename {
    pub at: At,
    pub left: Name,
    pub at_right: At,
    pub right: Name,
}

/// An expression as it is written, with the place of its first token.
#[cycle(expressions)]
#[derive(Drop)]
pub struct Expr {
    pub at: At,
    pub form: Form,
}

#[cycle(expressions)]
pub enum Form {
    True,
    False,
    /// `$`
    Whole,
    EmptySet,
    Name(Name),
    Number(u64),
    Pconst(PlacedInt),
    Paren(Boxed<Expr>),
    Literal(List<Expr>),
    Call(Name, List<Expr>),
    Not(Boxed<Expr>),
    And(List<Expr>),
    Or(List<Expr>),
    Implies(Boxed<Expr>, Boxed<Expr>),
    Iff(Boxed<Expr>, Boxed<Expr>),
    Relation(Rel, Boxed<Expr>, Boxed<Expr>),
    IsEmpty(Boxed<Expr>),
    Union(Boxed<Expr>, Boxed<Expr>),
    Inter(Boxed<Expr>, Boxed<Expr>),
    Minus(Boxed<Expr>, Boxed<Expr>),
    /// `t + n` or `t - n`
    Shift(Boxed<Expr>, PlacedInt),
    Min(Boxed<Expr>),
    Max(Boxed<Expr>),
    Bind(Quant, Order, List<Bound>, Boxed<Expr>),
    Let(Order, List<LetPart>, Boxed<Expr>),
    Restrict(Boxed<Expr>),
    Import(Text, List<Rename>),
    /// The place of the text, the text and the formula.
    Export(At, Text, Boxed<Expr>),
}

// What is last in an expression is let go in the same call, so nested brackets take no stack.
impl Drop for Form {
    #[cycle(form_drop)]
    fn drop(mut self) {
        loop {
            match self {
                Form::Paren(body) => self = body.into_inner().form,
                Form::Not(body) => self = body.into_inner().form,
                Form::IsEmpty(body) => self = body.into_inner().form,
                Form::Min(body) => self = body.into_inner().form,
                Form::Max(body) => self = body.into_inner().form,
                Form::Restrict(body) => self = body.into_inner().form,
                Form::Implies(left, right) => {
                    drop(left);
                    self = right.into_inner().form;
                }
                Form::Iff(left, right) => {
                    drop(left);
                    self = right.into_inner().form;
                }
                Form::Union(left, right) => {
                    drop(left);
                    self = right.into_inner().form;
                }
                Form::Inter(left, right) => {
                    drop(left);
                    self = right.into_inner().form;
                }
                Form::Minus(left, right) => {
                    drop(left);
                    self = right.into_inner().form;
                }
                Form::Relation(_, left, right) => {
                    drop(left);
                    self = right.into_inner().form;
                }
                Form::Shift(body, by) => {
                    drop(by);
                    self = body.into_inner().form;
                }
                Form::Bind(_, _, bounds, body) => {
                    drop(bounds);
                    self = body.into_inner().form;
                }
                Form::Let(_, parts, body) => {
                    drop(parts);
                    self = body.into_inner().form;
                }
                Form::Export(_, name, body) => {
                    drop(name);
                    self = body.into_inner().form;
                }
                Form::Literal(elements) => return drop(elements),
                Form::And(operands) => return drop(operands),
                Form::Or(operands) => return drop(operands),
                Form::Call(name, arguments) => {
                    drop(name);
                    return drop(arguments);
                }
                Form::Import(name, pairs) => {
                    drop(name);
                    return drop(pairs);
                }
                Form::Name(name) => return drop(name),
                Form::Pconst(number) => return drop(number),
                Form::Number(_) => return,
                Form::True => return,
                Form::False => return,
                Form::Whole => return,
                Form::EmptySet => return,
            }
        }
    }
}

#[derive(Drop)]
pub enum Decl {
    Vars(List<Bound>),
    Const(At, Name, List<PlacedInt>),
    /// Whether `pred` or `macro`, the name's place, the name, the parameters and the body.
    Pred(bool, At, Name, List<Bound>, Expr),
    Include(At, Text),
    /// A default restriction: the order of its variables, its parameter and its body.
    Default(Order, Name, Expr),
    Formula(Expr),
    /// A goal: the title's place, the title and the formula.
    Goal(At, Text, Expr),
}

/// A declaration with its place.
#[derive(Drop)]
pub struct Item {
    pub at: At,
    pub decl: Decl,
}

/// A file as it is written.
#[derive(Drop)]
pub struct Source {
    pub header: Option<(At, Mode)>,
    pub items: List<Item>,
}

/// A source with its includes put in place, and the names of the files that were loaded, in order.
#[derive(Drop)]
pub struct Loaded {
    pub mode: Mode,
    pub items: List<Item>,
    pub files: List<Text>,
}
