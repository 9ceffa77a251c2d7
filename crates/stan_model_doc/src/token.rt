//! The tokens of a PHPDoc tag: their kinds, and the words and marks that spell them.

/// What a token of a tag is.
#[derive(Clone, Copy, Debug, PartialEq, Eq)]
pub enum DocKind {
    /// No token stands there.
    End,
    /// `@param`. It and the other tags stand for the word with or without `phpstan-`.
    ParamTag,
    ReturnTag,
    VarTag,
    /// `@property`, `@property-read`, `@property-write`.
    PropertyTag,
    MethodTag,
    /// `@template`, `@template-covariant`.
    TemplateTag,
    /// `@extends`, `@implements`, `@use`.
    InheritTag,
    /// Any other tag.
    OtherTag,
    /// `$` and an identifier, but not `$this`.
    Variable,
    /// `$this`.
    This,
    /// A word with `-` or `\` in it.
    Name,
    /// A word that has no kind of its own.
    Identifier,
    /// `int`, in any case, as `array`, `callable` and `static`.
    Int,
    Array,
    Callable,
    Static,
    /// `Closure`, exactly so, as `min`, `max`, `is`, `not` and `of`.
    Closure,
    Min,
    Max,
    Is,
    Not,
    Of,
    /// An integer, with or without `-` before it.
    Integer,
    /// A float, with or without `-` before it.
    Float,
    /// A text in `'`.
    SingleQuoted,
    /// A text in `"` without insertions.
    DoubleQuoted,
    LeftParenthesis,
    RightParenthesis,
    LeftBracket,
    RightBracket,
    LeftBrace,
    RightBrace,
    /// `<`.
    Below,
    /// `>`.
    Above,
    Comma,
    Bar,
    Ampersand,
    Question,
    Colon,
    DoubleColon,
    Equals,
    Star,
    /// `...`.
    Ellipsis,
    /// A byte with which no token begins.
    Other,
}

/// The bytes from `start` up to `end` of a comment, as offsets.
#[derive(Clone, Copy, Debug, PartialEq, Eq)]
pub struct DocToken {
    pub kind: DocKind,
    pub start: u32,
    pub end: u32,
}

/// Where a tag stands in a comment, as offsets.
#[derive(Clone, Copy, Debug, PartialEq, Eq)]
pub struct TagSpan {
    /// The line of its `@`, where the comment's first line is 1.
    pub line: u32,
    /// The place of its `@`.
    pub start: u32,
    /// Where its word ends and its text begins.
    pub word_end: u32,
    /// Where its text ends: at the next tag, or at the end of the comment's text.
    pub end: u32,
}

/// The words that are read without case.
pub const FOLDED_WORDS: [(&str, DocKind); 4] = [
    ("int", DocKind::Int),
    ("array", DocKind::Array),
    ("callable", DocKind::Callable),
    ("static", DocKind::Static),
];

/// The words that are read exactly.
pub const EXACT_WORDS: [(&str, DocKind); 6] = [
    ("Closure", DocKind::Closure),
    ("min", DocKind::Min),
    ("max", DocKind::Max),
    ("is", DocKind::Is),
    ("not", DocKind::Not),
    ("of", DocKind::Of),
];

/// The words of the tags that mean something, without their `@`. Each has the same kind with `phpstan-` in front.
pub const TAG_WORDS: [(&str, DocKind); 12] = [
    ("param", DocKind::ParamTag),
    ("return", DocKind::ReturnTag),
    ("var", DocKind::VarTag),
    ("property", DocKind::PropertyTag),
    ("property-read", DocKind::PropertyTag),
    ("property-write", DocKind::PropertyTag),
    ("method", DocKind::MethodTag),
    ("template", DocKind::TemplateTag),
    ("template-covariant", DocKind::TemplateTag),
    ("extends", DocKind::InheritTag),
    ("implements", DocKind::InheritTag),
    ("use", DocKind::InheritTag),
];

/// What stands before the word of a tag that wins over the plain one.
pub const WINNING: &str = "phpstan-";

/// The marks. Each stands before the shorter ones with which it begins.
pub const DOC_MARKS: [(&str, DocKind); 17] = [
    ("...", DocKind::Ellipsis),
    ("::", DocKind::DoubleColon),
    ("(", DocKind::LeftParenthesis),
    (")", DocKind::RightParenthesis),
    ("[", DocKind::LeftBracket),
    ("]", DocKind::RightBracket),
    ("{", DocKind::LeftBrace),
    ("}", DocKind::RightBrace),
    ("<", DocKind::Below),
    (">", DocKind::Above),
    (",", DocKind::Comma),
    ("|", DocKind::Bar),
    ("&", DocKind::Ampersand),
    ("?", DocKind::Question),
    (":", DocKind::Colon),
    ("=", DocKind::Equals),
    ("*", DocKind::Star),
];
