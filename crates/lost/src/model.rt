// A simple model of a job: what each call must answer, and the state that it leaves. It shares no code with the library, and tells a refusal by its number
// (SPECIFICATION.md, "Refusals"), not by the library's name for it.
use crate::cells::declarable;
use crate::named::{all_completable, named_by};
use brute::locator::Expected;
use plain::refused::require;
use plain::values::{copy, part, product};
use plain_frames::cells::clear;
use plain_frames::frames::{check_sums, row};
use plain_frames::uniform::{data_of_uniform, near_uniform, uniform};

// What a planted model does wrong: it takes a job whose locate is refused by 24, 25 or 26 for one that is left as it was, it does not ask whether rows can be
// completed, it keeps the cells of the locate before, it takes 1 for each exponent, or it tells a dead line by the symbols that are received.
#[derive(Clone, Copy, PartialEq)]
pub enum Planted {
    Right,
    JobLeft,
    NotCompleted,
    CellsKept,
    ExponentLeftOut,
    ReceivedJudged,
}

// What a located job holds: the check sums of the frame as read, the declared cells, the length of the register and a mark for each column that it names.
#[derive(Clone, Copy)]
pub struct Found {
    pub sums: [u16; 512],
    pub words: [u64; 32],
    pub length: usize,
    pub named: [u16; 256],
}

#[derive(Clone, Copy)]
pub enum Phase {
    Empty,
    Shaped,
    Located(Found),
}

#[derive(Clone, Copy)]
pub struct Model {
    pub planted: Planted,
    pub phase: Phase,
    pub columns: u16,
    pub rows: u16,
    pub room: [u16; 8],
    pub exponent: u32,
}

// What locate or repair must answer: the columns that are found, or the number of the refusal; and the model as the call leaves it.
#[derive(Clone, Copy)]
pub struct Step {
    pub answer: Result<Found, u32>,
    pub model: Model,
}

fn shape_reason(columns: u16, checks: &[u16], exponent: u32) -> Result<(), u32> {
    require((1..=8).contains(&checks.len()), 2)?;
    require((2..=256).contains(&columns), 5)?;
    require(checks.iter().all(|n| 0 < *n && *n <= 64 && *n < columns), 6)?;
    require(exponent <= 255, 32)
}

// A symbol is above 256.
fn above(a: &[u16]) -> bool {
    a.iter().any(|x| *x > 256)
}

// A symbol of a data cell is above 256.
fn data_above(columns: u16, checks: &[u16], frame: &[u16]) -> bool {
    for (h, checks) in checks.iter().enumerate() {
        let n = usize::from(*checks);
        let data = usize::from(columns).saturating_sub(n);
        if above(part(row(frame, columns, h), n, data)) {
            return true;
        }
    }
    false
}

// The frame with 0 in its declared cells.
pub fn read(words: &[u64; 32], columns: u16, frame: &[u16]) -> [u16; 2048] {
    let mut room = [0u16; 2048];
    copy(frame, &mut room, 0);
    clear(words, columns, &mut room);
    room
}

pub fn empty(planted: Planted) -> Model {
    Model {
        planted,
        phase: Phase::Empty,
        columns: 0,
        rows: 0,
        room: [0; 8],
        exponent: 0,
    }
}

impl Model {
    // How many symbols a frame has.
    pub fn size(&self) -> usize {
        product(self.rows, self.columns) as usize
    }

    pub fn checks(&self) -> &[u16] {
        part(&self.room, 0, usize::from(self.rows))
    }

    fn at(&self, phase: Phase) -> Model {
        Model { phase, ..*self }
    }

    pub fn shape(&self, columns: u16, checks: &[u16], exponent: u32) -> Result<Model, u32> {
        shape_reason(columns, checks, exponent)?;
        let mut room = [0u16; 8];
        copy(checks, &mut room, 0);
        Ok(Model {
            planted: self.planted,
            phase: Phase::Shaped,
            columns,
            rows: (checks.len() % 65536) as u16,
            room,
            exponent,
        })
    }

    // A frame of the shape is lent: the reasons 21 and 7.
    fn takes(&self, frame: &[u16]) -> Result<(), u32> {
        require(!matches!(self.phase, Phase::Empty), 21)?;
        require(frame.len() == self.size(), 7)
    }

    // What encode answers. It leaves the job.
    pub fn encode(&self, frame: &[u16]) -> Result<(), u32> {
        self.takes(frame)?;
        let checks = self.checks();
        require(!data_above(self.columns, checks, frame), 4)?;
        require(
            !data_of_uniform(self.exponent, self.columns, checks, frame),
            34,
        )
    }

    // The exponent that the model sums with.
    fn summed_from(&self) -> u32 {
        if self.planted == Planted::ExponentLeftOut {
            return 1;
        }
        self.exponent
    }

    // The check sums of a frame as read.
    pub fn sums_of(&self, frame: &[u16]) -> [u16; 512] {
        let mut sums = [0u16; 512];
        check_sums(
            self.summed_from(),
            self.columns,
            self.checks(),
            frame,
            &mut sums,
        );
        sums
    }

    // The register of a frame as read and, where it names as many columns as it is long, whether each row can be completed.
    pub fn search(&self, words: &[u64; 32], sums: &[u16], marks: &mut [u16]) -> Expected {
        let checks = self.checks();
        let found = named_by(words, self.columns, checks, sums, marks);
        if found.refused.is_some()
            || self.planted == Planted::NotCompleted
            || all_completable(self.summed_from(), words, checks, sums, marks)
        {
            return found;
        }
        Expected {
            refused: Some(26),
            length: found.length,
        }
    }

    // The frame with the marked columns and the declared cells filled would be uniform.
    fn dead(&self, words: &[u64; 32], marks: &[u16], frame: &[u16]) -> bool {
        if self.planted == Planted::ReceivedJudged {
            return uniform(frame);
        }
        let from = self.summed_from();
        near_uniform(from, self.columns, self.checks(), words, marks, frame)
    }

    // What locating a frame answers where its sums tell this.
    pub fn ruled(
        &self,
        words: &[u64; 32],
        marks: &[u16],
        frame: &[u16],
        summed: Expected,
    ) -> Expected {
        if summed.refused.is_some() || !self.dead(words, marks, frame) {
            return summed;
        }
        Expected {
            refused: Some(26),
            length: summed.length,
        }
    }

    // The frame as read, or the reason to refuse before it is searched.
    fn taken(&self, words: &[u64; 32], frame: &[u16]) -> Result<[u16; 2048], u32> {
        self.takes(frame)?;
        require(declarable(words, self.columns, self.checks()), 31)?;
        let room = read(words, self.columns, frame);
        require(!above(&room), 4)?;
        Ok(room)
    }

    // The cells that a located model holds.
    fn held(&self, words: &[u64; 32]) -> [u64; 32] {
        match self.phase {
            Phase::Located(found) if self.planted == Planted::CellsKept => found.words,
            _ => *words,
        }
    }

    // The model as a locate leaves it that is refused by 24, 25 or 26.
    fn missed(&self) -> Model {
        if self.planted == Planted::JobLeft {
            return *self;
        }
        self.at(Phase::Shaped)
    }

    // What a frame, lent and as read, that is searched makes of a job.
    fn settle(&self, words: &[u64; 32], lent: &[u16], frame: &[u16]) -> Step {
        let sums = self.sums_of(frame);
        let mut named = [0u16; 256];
        let summed = self.search(words, &sums, &mut named);
        let expected = self.ruled(words, &named, lent, summed);
        if let Some(number) = expected.refused {
            return Step {
                answer: Err(number),
                model: self.missed(),
            };
        }
        let found = Found {
            sums,
            words: self.held(words),
            length: expected.length,
            named,
        };
        Step {
            answer: Ok(found),
            model: self.at(Phase::Located(found)),
        }
    }

    pub fn locate(&self, words: &[u64; 32], frame: &[u16]) -> Step {
        match self.taken(words, frame) {
            Ok(room) => self.settle(words, frame, &room),
            Err(number) => Step {
                answer: Err(number),
                model: *self,
            },
        }
    }

    // What a located model holds.
    fn holds(&self) -> Result<Found, u32> {
        match self.phase {
            Phase::Empty => Err(21),
            Phase::Shaped => Err(22),
            Phase::Located(found) => Ok(found),
        }
    }

    // What is found in a frame that can be mended.
    fn mendable(&self, frame: &[u16]) -> Result<Found, u32> {
        let found = self.holds()?;
        self.takes(frame)?;
        let room = read(&found.words, self.columns, frame);
        require(!above(&room), 4)?;
        require(self.sums_of(&room) == found.sums, 23)?;
        require(!self.dead(&found.words, &found.named, frame), 26)?;
        Ok(found)
    }

    // A refused repair leaves the job, but for 26.
    pub fn repair(&self, frame: &[u16]) -> Step {
        let answer = self.mendable(frame);
        let model = match answer {
            Ok(_) | Err(26) => self.at(Phase::Shaped),
            Err(_) => *self,
        };
        Step { answer, model }
    }
}
