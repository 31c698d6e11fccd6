// The grammar of a line: its forms, the words of each, and which form a line has. The definition stands in specs/.
#![tactic(auto)]

pub mod forms;

// What a line is, by its keyword; the two forms of `prim` differ in their third word.
#[derive(Clone, Copy, Debug, PartialEq, Eq)]
pub enum Form {
    Sort,
    Fun,
    Ctor,
    Simple,
    Equal,
    Global,
    Context,
    Atom,
    Set,
    Change,
    Eq,
    Union,
    Let,
    Bind,
    Panic,
    Local,
    Malformed,
}

// What a word of a line is.
#[derive(Clone, Copy, Debug, PartialEq, Eq)]
pub enum Kind {
    // the keyword of its form; the words that tell the two forms of `prim` apart
    Keyword,
    SimpleWord,
    EqualWord,
    // a name that the line declares
    NewSort,
    NewFunction,
    NewGlobal,
    // a sort's name; the same, or absent
    KnownSort,
    MaybeSort,
    // an exact length, or absent
    MaybeLength,
    // a primitive's mask, a context's number
    Mask,
    Number,
    // a head that may be declared or not
    Head,
    Variable,
    Term,
    // no word
    Extra,
}

// The pattern of a form: how many words a line of the form has at least, the kinds of the words behind its keyword, and that
// of any further ones.
// Stays: six fields and no array, since `kind_further` of specs/Laws.antt holds of every pattern: a list there has any length.
#[derive(Clone, Copy, Debug, PartialEq, Eq)]
pub struct Pattern {
    pub fewest: usize,
    pub first: Kind,
    pub second: Kind,
    pub third: Kind,
    pub fourth: Kind,
    pub fifth: Kind,
    pub sixth: Kind,
    pub further: Kind,
}
