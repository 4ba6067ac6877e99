//! One token on, and one record more.
ghost use Rattle.std.specs.Bool.{Decides};
ghost use Rattle.std.specs.Prelude.{◌≡◌, ◌<◌, false, OnOk, map, slice_set};
ghost use Rattle.grammar.specs.Parsers.{two};
ghost use Rattle.grammar.specs.TokenClasses.{class_number, among};
ghost use Rattle.text.specs.Steps.{at};
ghost use Rattle.text.specs.Tokens.{is_end, lexeme};
ghost use Rattle.reading.specs.States.{stream_of, IsAhead, Lends, Keeps, Written, linked_at, Recorded, Chained, Takes, shown, of_place, of_name, of_mark, of_node};
ghost use Rattle.reading.specs.Steps.{advanced, tail_of, front_of, misfit_of, taken, opened, any_taken, token_made, name_made, mark_made};

use crate::readers::{Mark, Name, Numbered, Reader};
use grammar::classing::{Asked, TokenClass, token_class};
use grammar::faults::GrammarFault;
use table::nodes::Node;
use text::places::Placed;
use text::tokens::{LexFault, Token};

/// Whether a token is the text's end.
fn is_end(token: Token<&[u8]>) -> bool
    ensures { result ≡ is_end (lexeme token.entry) }
{
    matches!(token, Token::End)
}

/// Whether one of several asks for a class.
fn among<C: Asked>(classes: &[C], class: TokenClass) -> bool
    ensures { result ≡ among (map C.asked classes.now) (class_number class) }
{
    classes.iter().any(|c| c.is(class))
}

impl Reader<'_, '_> {
    /// Goes on to the next token.
    pub(crate) fn advance(&mut self) -> Result<(), Placed<GrammarFault>>
        requires { is_end (lexeme self.old.token) ≡ false }
        ensures lends { Lends self.old self.new }
        ensures source { self.new.lexer.source ≡ self.old.lexer.source }
        ensures written { Keeps self.old self.new }
        ensures onward { OnOk result (self.old.place < self.new.place) }
        ensures stream { advanced result (stream_of self.new) ≡ tail_of (stream_of self.old) }
    {
        let next = self
            .lexer
            .next_token()
            .map_err(|fault| fault.map(GrammarFault::Lexical))?;
        self.token = next.item;
        self.place = next.place as u16;
        Ok(())
    }

    /// The class of the token ahead.
    pub fn class(&self) -> TokenClass
        ensures { class_number result ≡ front_of (stream_of self.now) }
    {
        token_class(self.token)
    }

    /// Whether the token ahead is of a class. The end is of none.
    fn is_ahead<C: Asked>(&self, class: C) -> bool
        ensures { Decides result (IsAhead (C.asked class) self.now) }
    {
        !is_end(self.token) && class.is(self.class())
    }

    /// Whether the tokens ahead are of two classes.
    pub fn followed<C: Asked, D: Asked>(&self, first: C, second: D) -> bool
        ensures { result ≡ two (C.asked first) (D.asked second) (stream_of self.now).tokens }
    {
        if !self.is_ahead(first) {
            return false;
        }
        let mut lexer = self.lexer;
        lexer.next_token().is_ok_and(|next| !is_end(next.item) && second.is(token_class(next.item)))
    }

    /// A refusal at the token ahead.
    fn refusal(&self, item: GrammarFault) -> Placed<GrammarFault>
        ensures { result ≡ at item self.now.place }
    {
        Placed {
            item,
            place: usize::from(self.place),
        }
    }

    /// The refusal of the token ahead.
    pub fn misfit(&self) -> Placed<GrammarFault>
        ensures { result ≡ misfit_of (stream_of self.now) }
    {
        let item = if self.class() == TokenClass::Large {
            GrammarFault::Lexical(LexFault::NumberTooLarge)
        } else {
            GrammarFault::Misfit
        };
        self.refusal(item)
    }

    /// Takes a token of a class, and tells its place. The end is not taken.
    pub fn take<C: Asked>(&mut self, class: C) -> Result<u16, Placed<GrammarFault>>
        ensures { Takes (token_made (C.asked class)) (taken (C.asked class) (stream_of self.old)) self.old (shown of_place result) self.new }
    {
        if !self.is_ahead(class) {
            return Err(self.misfit());
        }
        let place = self.place;
        self.advance()?;
        Ok(place)
    }

    /// Takes a token that opens a construct, if any more may be open.
    pub fn open<C: Asked>(&mut self, class: C, allowed: u8) -> Result<u16, Placed<GrammarFault>>
        ensures takes { Takes (token_made (C.asked class)) (opened allowed (C.asked class) (stream_of self.old)) self.old (shown of_place result) self.new }
        ensures allows { OnOk result (0 < allowed) }
    {
        if allowed > 0 {
            return self.take(class);
        }
        if self.is_ahead(class) {
            return Err(self.refusal(GrammarFault::TooDeep));
        }
        Err(self.misfit())
    }

    /// Takes a name.
    pub fn name(&mut self) -> Result<Name, Placed<GrammarFault>>
        ensures { Takes name_made (taken 51 (stream_of self.old)) self.old (shown of_name result) self.new }
    {
        let Token::Name(bytes) = self.token else {
            return Err(self.misfit());
        };
        let length = bytes.len() as u8;
        let place = self.take(TokenClass::Name)?;
        Ok(Name { length, place })
    }

    /// Takes a token of one of several classes.
    pub fn one_of<C: Asked>(&mut self, classes: &[C]) -> Result<Mark, Placed<GrammarFault>>
        ensures { Takes mark_made (any_taken (map C.asked classes.now) (stream_of self.old)) self.old (shown of_mark result) self.new }
    {
        let class = self.class();
        if !among(classes, class) {
            return Err(self.misfit());
        }
        let place = self.take(class)?;
        Ok(Mark { class, place })
    }

    /// How many nodes there are.
    pub fn nodes(&self) -> u16
        ensures { result ≡ self.now.count }
    {
        self.count
    }

    /// Writes a record, if the table has it.
    fn put(&mut self, at: u16, node: Node)
        ensures { Written self.old self.new (slice_set self.old.table.now at node) }
    {
        let at = usize::from(at);
        if at < self.table.len() {
            self.table[at] = node;
        }
    }

    /// Writes a node after those that there are.
    pub fn record(&mut self, node: Node) -> Numbered
        requires { self.old.count < self.old.place }
        ensures { Recorded self.old self.new node (of_node result) }
    {
        let number = self.count + 1;
        self.put(number, node);
        self.count = number;
        Numbered {
            number,
            place: node.place,
        }
    }

    /// Makes one node the next of another.
    pub(crate) fn link(&mut self, last: u16, next: u16)
        ensures { Written self.old self.new (linked_at last next self.old.table.now) }
    {
        let at = usize::from(last);
        if at < self.table.len() {
            self.table[at].next = next;
        }
    }

    /// A list goes on with a node: the first of the list.
    pub fn chain(&mut self, first: u16, last: u16, next: u16) -> u16
        ensures { Chained self.old self.new first last next result }
    {
        if first == 0 {
            return next;
        }
        self.link(last, next);
        first
    }
}
