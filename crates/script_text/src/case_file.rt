// A file of cases.
use crate::block::{Block, with_octets};
use crate::case::{Case, Player, Report};
use crate::each::Each;
use crate::fault::Fault;
use crate::part::parts_of;
use crate::pieces::Pieces;
use crate::wanted::wanted_of;
use std::alloc::Global;
use std::mem;

/// What was read of a file of cases. A case is played as soon as the next one begins.
#[derive(Drop)]
pub struct CaseFile {
    pieces: Pieces,
    /// The lines of octets that are being read.
    block: Option<Block>,
    /// The lines that stand for many, and are being read.
    each: Option<Each>,
    /// The case that is being read.
    case: Option<Case>,
    cases: u64,
    failed: u64,
    told: String,
}

impl CaseFile {
    pub fn new(alloc: Global) -> Self {
        CaseFile {
            pieces: Pieces::new(alloc),
            block: None,
            each: None,
            case: None,
            cases: 0,
            failed: 0,
            told: String::new(alloc),
        }
    }

    /// How many cases were played.
    pub fn cases(&self) -> u64 {
        self.cases
    }

    /// How many of them left something else than they are to leave.
    pub fn failed(&self) -> u64 {
        self.failed
    }

    /// A line for each thing that was left otherwise.
    pub fn told(&self) -> &str {
        self.told.as_str()
    }

    /// Takes the next line.
    pub fn take_line<P: Player>(
        &mut self,
        alloc: Global,
        player: &P,
        line: &str,
    ) -> Result<(), Fault> {
        if line.is_empty() || line.starts_with('#') {
            return Ok(());
        }
        if let Some(block) = &mut self.block {
            if block.takes(alloc, &self.pieces, line)? {
                return Ok(());
            }
        }
        self.end_block(alloc, player)?;
        if let Some(each) = &mut self.each {
            if each.takes(alloc, line)? {
                return Ok(());
            }
        }
        self.end_each(alloc, player)?;
        self.begin(alloc, player, line)
    }

    /// Takes a line that belongs to none before it.
    fn begin<P: Player>(&mut self, alloc: Global, player: &P, line: &str) -> Result<(), Fault> {
        if let Some(block) = Block::begun(alloc, line)? {
            self.block = Some(block);
            return Ok(());
        }
        if let Some(each) = Each::begun(alloc, line)? {
            self.each = Some(each);
            return Ok(());
        }
        self.take_plain(alloc, player, line)
    }

    /// Plays the last case.
    pub fn end<P: Player>(&mut self, alloc: Global, player: &P) -> Result<(), Fault> {
        self.end_block(alloc, player)?;
        self.end_each(alloc, player)?;
        self.end_case(alloc, player)
    }

    fn end_block<P: Player>(&mut self, alloc: Global, player: &P) -> Result<(), Fault> {
        match mem::replace(&mut self.block, None) {
            Some(block) => {
                let line = block.ended(alloc)?;
                self.take_plain(alloc, player, line.as_str())
            }
            None => Ok(()),
        }
    }

    fn end_each<P: Player>(&mut self, alloc: Global, player: &P) -> Result<(), Fault> {
        let Some(each) = mem::replace(&mut self.each, None) else {
            return Ok(());
        };
        for line in each.ended(alloc)? {
            self.take_plain(alloc, player, line.as_str())?;
        }
        Ok(())
    }

    fn end_case<P: Player>(&mut self, alloc: Global, player: &P) -> Result<(), Fault> {
        let Some(case) = mem::replace(&mut self.case, None) else {
            return Ok(());
        };
        let mut report = Report::new(alloc, case.name.as_str())?;
        player.play(alloc, case, &mut report)?;
        self.cases = self.cases.saturating_add(1);
        if !report.lines().is_empty() {
            self.failed = self.failed.saturating_add(1);
            self.told.push_str(report.lines())?;
        }
        Ok(())
    }

    /// The case that is being read.
    fn case(&mut self) -> Result<&mut Case, Fault> {
        match &mut self.case {
            Some(case) => Ok(case),
            None => Err(Fault::Wrong("a case or a piece is wanted")),
        }
    }

    /// Takes a line whose octets stand in it, as hexadecimal digits or by the names of pieces.
    fn take_plain<P: Player>(
        &mut self,
        alloc: Global,
        player: &P,
        line: &str,
    ) -> Result<(), Fault> {
        match line.rsplit_once(' ') {
            Some((front, spelled)) if spelled.contains('@') => {
                let octets = self.pieces.octets(alloc, spelled)?;
                let line = with_octets(alloc, front, octets.as_slice())?;
                self.take_spelled(alloc, player, line.as_str())
            }
            _ => self.take_spelled(alloc, player, line),
        }
    }

    /// Takes a line whose octets stand in it as hexadecimal digits.
    fn take_spelled<P: Player>(
        &mut self,
        alloc: Global,
        player: &P,
        line: &str,
    ) -> Result<(), Fault> {
        if let Some(name) = line.strip_prefix("case ") {
            self.end_case(alloc, player)?;
            self.case = Some(Case::new(alloc, name)?);
            return Ok(());
        }
        if let Some(line) = line.strip_prefix("gives ") {
            return self.case()?.given.push(alloc, line);
        }
        if let Some(line) = line.strip_prefix("has ") {
            return self.case()?.given.push_some(alloc, line);
        }
        let parts = parts_of(alloc, line)?;
        if let ["piece", name, given] = parts.as_slice() {
            let octets = crate::part::octets(alloc, given)?;
            return self.pieces.push(alloc, name, octets);
        }
        let case = self.case()?;
        if let Some(wanted) = wanted_of(alloc, parts.as_slice())? {
            return case.want(wanted);
        }
        if let ["words", words @ ..] = parts.as_slice() {
            for word in words {
                case.script.push_word(alloc, word)?;
            }
            return Ok(());
        }
        case.script.take_line(alloc, line)
    }
}
