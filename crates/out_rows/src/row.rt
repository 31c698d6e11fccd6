// A line, and the place behind what was put into it.
ghost use Rattle.std.specs.Prelude.{◌≡◌, ◌++◌, ◌+◌, ◌≤◌, length};
ghost use Rattle.text_words.specs.Put.{decimal, cell_digits};
ghost use Rattle.text_grammar.specs.Bytes.{bytes};
ghost use Rattle.text_definition.specs.Rows.{only_first, refused_row, term_text};
ghost use Rattle.out_rows.specs.Row.{Wrote, one_number, two_numbers};
ghost use Rattle.out_rows.specs.Room.{besides};

use text_words::put;

#[derive(Drop)]
pub struct Row<'a> {
    pub line: &'a mut [u8],
    pub at: usize,
}

impl Row<'_> {
    pub fn put(&mut self, bytes: &[u8])
        requires { self.old.at + length bytes.now ≤ length self.old.line.now }
        ensures { Wrote self.old bytes.now self.new }
    {
        self.at = put::put(self.line, self.at, bytes);
    }

    pub fn put_count(&mut self, n: usize)
        requires { self.old.at + cell_digits ≤ length self.old.line.now }
        ensures wrote { Wrote self.old (decimal n) self.new }
        ensures most { self.new.at ≤ self.old.at + cell_digits }
    {
        self.at = put::put_number(self.line, self.at, n);
    }

    // A word and a number, with which all rows but a term's begin.
    pub fn begin(&mut self, word: &[u8], n: usize)
        requires { self.old.at + (length word.now + cell_digits) ≤ length self.old.line.now }
        ensures wrote { Wrote self.old (word.now ++ decimal n) self.new }
        ensures most { self.new.at ≤ self.old.at + (length word.now + cell_digits) }
    {
        self.put(word);
        self.put_count(n);
    }

    // A space and a name.
    pub fn put_next(&mut self, name: &[u8])
        requires { self.old.at + (1 + length name.now) ≤ length self.old.line.now }
        ensures { Wrote self.old (bytes " " ++ name.now) self.new }
    {
        self.put(b" ");
        self.put(name);
    }

    // A term's name; a fresh term, which has none, as `#` and its number.
    pub fn put_term(&mut self, name: &[u8], t: usize)
        requires { self.old.at + (length name.now + (1 + cell_digits)) ≤ length self.old.line.now }
        ensures wrote { Wrote self.old (term_text t name.now) self.new }
        ensures most { self.new.at ≤ self.old.at + (length name.now + (1 + cell_digits)) }
    {
        if name.is_empty() {
            self.begin(b"#", t);
        } else {
            self.put(name);
        }
    }

    // A row of a word and a number.
    pub fn put_one(&mut self, word: &[u8], n: usize)
        requires { self.old.at + (length word.now + cell_digits + 1) ≤ length self.old.line.now }
        ensures { Wrote self.old (one_number word.now n) self.new }
    {
        self.begin(word, n);
        self.put(b"\n");
    }

    pub fn put_two(&mut self, word: &[u8], n: usize, middle: &[u8], m: usize)
        requires { self.old.at + (length word.now + cell_digits + length middle.now + cell_digits + 1) ≤ length self.old.line.now }
        ensures { Wrote self.old (two_numbers word.now n middle.now m) self.new }
    {
        self.begin(word, n);
        self.begin(middle, m);
        self.put(b"\n");
    }

    // `refused NUMBER line L` is the only row.
    pub fn put_refused(&mut self, k: usize, number: usize, place: usize)
        requires { self.old.at + besides ≤ length self.old.line.now }
        ensures { Wrote self.old (only_first (refused_row number place) k) self.new }
    {
        if k == 0 {
            self.put_two(b"refused ", number, b" line ", place);
        }
    }
}
