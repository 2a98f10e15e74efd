// What stands on the bench, and what it answers to a line.
use crate::commands::Command;
use crate::rule::RuleName;
use crate::script::{Wrong, uncommented};
use crate::stores::{Pile, Plan};
use crate::{answers, rows};
use std::alloc::Global;

// A receiver has only its rule and its store yet: it holds them until it is ended, and never has a session.
#[derive(Drop)]
struct Receiver {
    rule: RuleName,
    store: Pile,
}

/// What stands on the bench.
#[derive(Drop)]
pub struct Bench {
    heap: Global,
    loaded: Vec<u8>,
    store: Option<Pile>,
    receiver: Option<Receiver>,
}

impl Bench {
    /// A bench with nothing on it.
    pub(crate) fn new(heap: Global) -> Bench {
        Bench {
            heap,
            loaded: Vec::new(heap),
            store: None,
            receiver: None,
        }
    }

    fn load(&mut self, block: Vec<u8>) -> Result<String, Wrong> {
        let length = block.len();
        let text = format!(in self.heap; "loaded {length}")?;
        self.loaded = block;
        Ok(text)
    }

    // Makes a store, and the answer that names it.
    fn build(&self, word: &str, plan: Plan) -> Result<(Pile, String), Wrong> {
        let store = plan.build(self.heap)?;
        let text = answers::shape(self.heap, word, &store)?;
        Ok((store, text))
    }

    // Takes the store from the bench, once the answer that names it is made.
    fn take(&mut self, word: &str) -> Result<(Pile, String), Wrong> {
        let text = answers::shape(self.heap, word, self.store.as_ref().ok_or(Wrong)?)?;
        Ok((self.store.take().ok_or(Wrong)?, text))
    }

    fn put(&mut self, plan: Plan) -> Result<String, Wrong> {
        let (store, text) = self.build("store", plan)?;
        self.store = Some(store);
        Ok(text)
    }

    fn read(&self, p: usize, n: usize) -> Result<String, Wrong> {
        let store = self.store.as_ref().ok_or(Wrong)?;
        Ok(answers::read(self.heap, store, p, n)?)
    }

    fn write(&mut self, p: usize, bytes: &[u8]) -> Result<String, Wrong> {
        let store = self.store.as_mut().ok_or(Wrong)?;
        Ok(answers::write(self.heap, store, p, bytes)?)
    }

    fn receive(&mut self, rule: RuleName, plan: Option<Plan>) -> Result<String, Wrong> {
        if self.receiver.is_some() {
            return Err(Wrong);
        }
        let (store, text) = match plan {
            Some(plan) => self.build("receiver", plan)?,
            None => self.take("receiver")?,
        };
        self.receiver = Some(Receiver { rule, store });
        Ok(text)
    }

    fn state(&self) -> Result<String, Wrong> {
        self.receiver.as_ref().ok_or(Wrong)?;
        Ok(String::from_str(self.heap, "none")?)
    }

    fn end(&mut self) -> Result<String, Wrong> {
        let receiver = self.receiver.as_ref().ok_or(Wrong)?;
        let rule = receiver.rule;
        let word = format!(in self.heap; "ended rule={rule}")?;
        let text = answers::shape(self.heap, word.as_str(), &receiver.store)?;
        self.store = self.receiver.take().map(|receiver| receiver.store);
        Ok(text)
    }

    // Kept: a match, since the commands are a closed set and each is answered by what it asks for.
    fn answer(&mut self, command: Command) -> Result<String, Wrong> {
        let heap = self.heap;
        match command {
            Command::Serves { rule, algo, m } => {
                Ok(String::from_str(heap, rows::serves(rule, algo, m))?)
            }
            Command::Row(asked) => Ok(asked.answer(heap)?),
            Command::Load(block) => self.load(block),
            Command::Store(plan) => self.put(plan),
            Command::Read { p, n } => self.read(p, n),
            Command::Write { p, bytes } => self.write(p, bytes.as_slice()),
            Command::Receiver { rule, store } => self.receive(rule, store),
            Command::State => self.state(),
            Command::End => self.end(),
        }
    }

    /// The answer to a line, or none where it holds no command.
    pub(crate) fn line(&mut self, line: &[u8]) -> Result<Option<String>, Wrong> {
        let text = std::str::from_utf8(uncommented(line))?;
        let command = Command::read(self.heap, text)?;
        command.map(|command| self.answer(command)).transpose()
    }
}
