//! Kinds of nodes, and types.
ghost use Rattle.std.specs.Prelude.{◌≡◌};
ghost use Rattle.table.specs.Numbers.{kind_number, type_number};

/// What a node is, by its number in a record.
#[derive(Clone, Copy, PartialEq, Eq, Debug)]
pub enum Kind {
    Number = 1,
    True = 2,
    False = 3,
    Variable = 4,
    Call = 5,
    Plus = 6,
    Minus = 7,
    Times = 8,
    Divide = 9,
    Equal = 10,
    Less = 11,
    AtMost = 12,
    And = 13,
    Or = 14,
    Not = 15,
    In = 16,
    Least = 17,
    Greatest = 18,
    Count = 19,
    Empty = 20,
    Expression = 21,
    Assign = 22,
    If = 23,
    While = 24,
    Read = 25,
    Write = 26,
    Add = 27,
    Remove = 28,
    Return = 29,
    Declared = 30,
    Parameter = 31,
    Function = 32,
    Forward = 33,
    Program = 34,
}

impl Kind {
    /// The number of the kind in a record.
    pub fn number(self) -> u8
        ensures { result ≡ kind_number self }
    {
        self as u8
    }
}

/// The type of a variable, a parameter or a result, by its number in a record.
#[derive(Clone, Copy, PartialEq, Eq, Debug)]
pub enum DataType {
    Integer = 1,
    Truth = 2,
    IntegerSet = 3,
    Void = 4,
}

impl DataType {
    /// The number of the type in a record.
    pub fn number(self) -> u8
        ensures { result ≡ type_number self }
    {
        self as u8
    }
}
