// The reader: tokens become terms, and terms become nodes.
ghost use Rattle.std.specs.Prelude.{◌≡◌, ◌<◌, true, length, IfOk};
ghost use Rattle.sheet.specs.Nodes.{fits};
ghost use Rattle.sheet.specs.View.{state, nodes_of};
ghost use Rattle.reader.specs.Faults.{told};
ghost use Rattle.reader.specs.Reading.{read_sign, add_part, close_list, enter_at, read_term, read_list, read_end, read_whole, reading, Known, Within};
ghost use Rattle.reader.specs.Steps.{token_due, Reads};
ghost use Rattle.reader.specs.Exact.{Exact};

use crate::cutter::Cutter;
use crate::fault::{Cause, Fault, Layer};
use crate::token::{Kind, Token};
use sheet::{Node, Sheet};

// The most brackets that may be open.
const DEEPEST: usize = 16;

#[derive(Clone, Copy)]
enum Sign {
    Meet,
    Join,
}

// What a list has joined or met so far.
#[derive(Clone, Copy)]
enum Held {
    Nothing,
    One(usize),
    Several(usize),
}

impl Held {
    // What a list is that closes at `place`.
    fn close(self, place: usize) -> Result<usize, Fault>
        ensures { told result ≡ close_list self place }
    {
        match self {
            Held::Several(whole) => Ok(whole),
            _ => Err(Layer::Reader.fault(Cause::TooShort, place)),
        }
    }
}

// The cutter of a text, and the sheet that its term is entered on.
#[derive(Drop)]
struct Reader<'t, 's> {
    cutter: Cutter<'t>,
    sheet: &'s mut Sheet,
}

impl<'t, 's> Reader<'t, 's> {
    // The next token, which must be there.
    fn due(&mut self) -> Result<Token, Fault>
        ensures reads { Reads self.old (told result) self.new token_due }
        ensures past { IfOk result (λ token. self.old.cutter.at < self.new.cutter.at) }
        ensures known { IfOk result (λ token. Known token.kind) }
    {
        let cutter = &mut self.cutter;
        let token = cutter.next()?;
        token.ok_or(Layer::Reader.fault(Cause::Unfinished, cutter.len()))
    }

    fn sign_due(&mut self) -> Result<Sign, Fault>
        ensures { Reads self.old (told result) self.new read_sign }
    {
        let token = self.due()?;
        match token.kind {
            Kind::Plus => Ok(Sign::Join),
            Kind::Star => Ok(Sign::Meet),
            _ => Err(Layer::Reader.fault(Cause::Misplaced, token.place)),
        }
    }

    // Enters a node whose code or parts are there, so that it can only be refused for want of room.
    fn enter(&mut self, node: Node, place: usize) -> Result<usize, Fault>
        requires { fits (length (nodes_of self.old.sheet.now)) node ≡ true }
        ensures { Reads self.old (told result) self.new (λ text. enter_at node place) }
    {
        self.sheet
            .enter(node)
            .map_err(|_| Layer::Sheet.fault(Cause::Full, place))
    }

    // One more part of a list, which begins at `place`.
    fn add(&mut self, sign: Sign, held: Held, part: usize, place: usize) -> Result<Held, Fault>
        requires part { part < length (nodes_of self.old.sheet.now) }
        requires held { Within (length (nodes_of self.old.sheet.now)) held }
        ensures { Reads self.old (told result) self.new (λ text. add_part sign held part place) }
    {
        let whole = match held {
            Held::Nothing => return Ok(Held::One(part)),
            Held::One(whole) | Held::Several(whole) => whole,
        };
        let node = match sign {
            Sign::Meet => Node::Meet(whole, part),
            Sign::Join => Node::Join(whole, part),
        };
        self.enter(node, place).map(Held::Several)
    }

    // The term that begins with `token`, where `left` brackets may still open.
    #[cycle(list_term)]
    fn term(&mut self, token: Token, left: usize) -> Result<usize, Fault>
        requires { Known token.kind }
        ensures { Reads self.old (told result) self.new (λ text. read_term left text token) }
    {
        match token.kind {
            Kind::Variable(code) => self.enter(Node::Variable(code), token.place),
            Kind::Open if left > 0 => self.list(left - 1),
            Kind::Open => Err(Layer::Reader.fault(Cause::TooDeep, token.place)),
            _ => Err(Layer::Reader.fault(Cause::Misplaced, token.place)),
        }
    }

    // The list whose opening bracket was cut.
    #[cycle(list_term)]
    fn list(&mut self, left: usize) -> Result<usize, Fault>
        ensures { Reads self.old (told result) self.new (λ text. read_list (read_term left text) text) }
    {
        let sign = self.sign_due()?;
        let mut held = Held::Nothing;
        loop {
            let token = self.due()?;
            if let Kind::Close = token.kind {
                return held.close(token.place);
            }
            let part = self.term(token, left)?;
            held = self.add(sign, held, part, token.place)?;
        }
    }

    // The end of the text behind its term, which is `node`.
    fn end(&mut self, node: usize) -> Result<usize, Fault>
        ensures { Reads self.old (told result) self.new (λ text. read_end text node) }
    {
        match self.cutter.next()? {
            None => Ok(node),
            Some(extra) => Err(Layer::Reader.fault(Cause::Trailing, extra.place)),
        }
    }

    // The one term of a text.
    fn whole(&mut self) -> Result<usize, Fault>
        ensures { Reads self.old (told result) self.new read_whole }
    {
        let token = self.due()?;
        let node = self.term(token, DEEPEST)?;
        self.end(node)
    }
}

// Enters the term that a text writes, and answers its node. A refused text leaves the sheet as it was.
pub fn read(sheet: &mut Sheet, text: &[u8]) -> Result<usize, Fault>
    ensures does { (state sheet.new, told result) ≡ reading (state sheet.old) text.now }
    ensures exact { Exact text.now (nodes_of sheet.old) (nodes_of sheet.new) (told result) }
{
    let kept = sheet.count();
    let mut reader = Reader {
        cutter: Cutter::new(text),
        sheet,
    };
    let answer = reader.whole();
    if answer.is_err() {
        reader.sheet.keep(kept);
    }
    answer
}
