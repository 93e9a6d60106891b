//! The scenarios of a text, their exchanges, and what is done with their tables.

use crate::Fault;
use crate::texts::{Line, push_line};
use std::alloc::Global;

/// A request and its answer: none has no byte.
#[derive(Drop)]
pub struct Exchange {
    /// The number of the line at which it begins, from 1 on.
    pub line: usize,
    /// When the request comes, in Unix seconds.
    pub moment: u64,
    /// The bytes of the request.
    pub request: Vec<u8>,
    /// The bytes of the answer.
    pub answer: Vec<u8>,
}

/// What is done with the tables of a scenario.
#[derive(Clone, Copy)]
pub enum Act {
    /// Somebody else makes statements.
    Change,
    /// A desk is opened over them, which the exchanges behind it ask.
    Open,
    /// They are brought to the present schema.
    Migrate,
    /// The tables of a new desk are made.
    Make,
    /// A query shows rows.
    Show,
}

impl Act {
    /// That of a mark.
    fn of(mark: &str) -> Option<Act> {
        match mark {
            ";" => Some(Act::Change),
            "^" => Some(Act::Open),
            "&" => Some(Act::Migrate),
            "*" => Some(Act::Make),
            "?" => Some(Act::Show),
            _ => None,
        }
    }

    /// Whether its text is of SQL: else it is what has to come of it.
    fn is_asked(self) -> bool {
        matches!(self, Act::Change | Act::Show)
    }

    /// The mark of what has to come of it.
    pub fn answer_mark(self) -> char {
        match self {
            Act::Change => ';',
            Act::Open => '^',
            Act::Migrate => '&',
            Act::Make => '*',
            Act::Show => '-',
        }
    }
}

/// What is done with tables, while no desk is open.
#[derive(Drop)]
pub struct Step {
    /// The number of its line, from 1 on.
    pub line: usize,
    /// What is done.
    pub act: Act,
    /// The statements or the query.
    pub asked: Vec<u8>,
    /// What has to come of it.
    pub wanted: Vec<u8>,
    /// How many exchanges of the scenario are before it.
    pub before: usize,
}

impl Step {
    /// Whether a desk is there behind it.
    fn opens(&self) -> bool {
        matches!(self.act, Act::Open) && self.wanted.as_slice() == b"serves\n".as_slice()
    }
}

/// What a new desk is asked, and what is done with its tables.
#[derive(Drop)]
pub struct Scenario<'t> {
    /// The number of the line at which it begins, from 1 on.
    pub line: usize,
    /// Its name.
    pub name: &'t str,
    /// The text of its policy: without a byte where it has that of the scenario before.
    pub policy: Vec<u8>,
    /// How many calls of its desk's store are handed on before one is refused, if one is. The first
    /// call opens the desk.
    pub calls: Option<u64>,
    /// Its requests with their answers, in order.
    pub exchanges: Vec<Exchange>,
    /// What is done with its tables, in order, and before which exchanges.
    pub steps: Vec<Step>,
}

impl<'t> Scenario<'t> {
    /// A scenario that has no exchange yet.
    fn new(alloc: Global, line: Line<'t>) -> Self {
        Scenario {
            line: line.number,
            name: line.text,
            policy: Vec::new(alloc),
            calls: None,
            exchanges: Vec::new(alloc),
            steps: Vec::new(alloc),
        }
    }

    /// Whether nothing of it was told yet.
    fn is_new(&self) -> bool {
        self.exchanges.is_empty() && self.steps.is_empty()
    }

    /// The last exchange, unless a step is behind it.
    fn last_exchange(&mut self) -> Option<&mut Exchange> {
        let before = self.steps.last().map_or(0, |step| step.before);
        if before == self.exchanges.len() {
            return None;
        }
        self.exchanges.last_mut()
    }

    /// Adds a line of its policy: before its first exchange.
    fn add_policy(&mut self, line: Line<'_>) -> Result<(), Fault> {
        if !self.is_new() {
            return Err(Fault::Text(line.number));
        }
        push_line(&mut self.policy, line)
    }

    /// Says which call of its store is refused: before its first exchange.
    fn refuse(&mut self, line: Line<'_>) -> Result<(), Fault> {
        if !self.is_new() {
            return Err(Fault::Text(line.number));
        }
        self.calls = Some(line.count()?);
        Ok(())
    }

    /// Begins an exchange: where a desk is open.
    fn begin_exchange(&mut self, alloc: Global, line: Line<'_>) -> Result<(), Fault> {
        if !self.steps.last().map_or(true, Step::opens) {
            return Err(Fault::Text(line.number));
        }
        let exchange = Exchange {
            line: line.number,
            moment: line.count()?,
            request: Vec::new(alloc),
            answer: Vec::new(alloc),
        };
        self.exchanges.push(exchange)?;
        Ok(())
    }

    /// Adds a line of the last exchange's request: before its answer.
    fn add_request(&mut self, line: Line<'_>) -> Result<(), Fault> {
        match self.last_exchange() {
            Some(exchange) if exchange.answer.is_empty() => {
                push_line(&mut exchange.request, line)
            }
            _ => Err(Fault::Text(line.number)),
        }
    }

    /// Adds a line of the last exchange's answer.
    fn add_answer(&mut self, line: Line<'_>) -> Result<(), Fault> {
        match self.last_exchange() {
            Some(exchange) => push_line(&mut exchange.answer, line),
            None => Err(Fault::Text(line.number)),
        }
    }

    /// Begins a step.
    fn begin_step(&mut self, alloc: Global, act: Act, line: Line<'_>) -> Result<(), Fault> {
        let mut step = Step {
            line: line.number,
            act,
            asked: Vec::new(alloc),
            wanted: Vec::new(alloc),
            before: self.exchanges.len(),
        };
        if act.is_asked() {
            push_line(&mut step.asked, line)?;
        } else {
            push_line(&mut step.wanted, line)?;
        }
        self.steps.push(step)?;
        Ok(())
    }

    /// Adds a row that the last step shows.
    fn add_row(&mut self, line: Line<'_>) -> Result<(), Fault> {
        match self.steps.last_mut() {
            Some(step) if matches!(step.act, Act::Show) => push_line(&mut step.wanted, line),
            _ => Err(Fault::Text(line.number)),
        }
    }

    /// Adds a line that does not begin a scenario.
    fn add(&mut self, alloc: Global, mark: &str, line: Line<'_>) -> Result<(), Fault> {
        match mark {
            "|" => self.add_policy(line),
            "%" => self.refuse(line),
            "@" => self.begin_exchange(alloc, line),
            ">" => self.add_request(line),
            "<" => self.add_answer(line),
            "-" => self.add_row(line),
            _ => match Act::of(mark) {
                Some(act) => self.begin_step(alloc, act, line),
                None => Err(Fault::Text(line.number)),
            },
        }
    }
}

/// Adds a line to the last of these scenarios, or begins another.
fn add_line<'t>(
    alloc: Global,
    scenarios: &mut Vec<Scenario<'t>>,
    line: Line<'t>,
) -> Result<(), Fault> {
    let (mark, line) = line.parts()?;
    if mark == "=" {
        scenarios.push(Scenario::new(alloc, line))?;
        return Ok(());
    }
    match scenarios.last_mut() {
        Some(scenario) => scenario.add(alloc, mark, line),
        None => Err(Fault::Text(line.number)),
    }
}

/// The scenarios of a text, in its order.
///
/// # Errors
/// `Text` with the first line that is not of the form, and `Memory`.
pub fn scenarios_of(alloc: Global, text: &str) -> Result<Vec<Scenario<'_>>, Fault> {
    let mut scenarios = Vec::new(alloc);
    let Some(text) = text.strip_prefix("# ") else {
        return Err(Fault::Text(1));
    };
    let text = text.strip_suffix('\n').unwrap_or(text);
    for (index, text) in text.split('\n').enumerate().skip(1) {
        let number = index.saturating_add(1);
        add_line(alloc, &mut scenarios, Line { number, text })?;
    }
    Ok(scenarios)
}
