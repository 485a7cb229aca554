//! The words of a text of blocks, one after another.
ghost use Rattle.std.specs.Prelude.{◌≡◌, ◌<◌, ◌≤◌, ℕ, vec_len, length, true, false, None, IfSome, IfOk, unwrap_or};
ghost use Rattle.std.specs.List.{list_any, list_all};
ghost use Rattle.cip_text_rules.specs.Lines.{is_line_feed};
ghost use Rattle.cip_text_rules.specs.LineStream.{Going, line_read};
ghost use Rattle.cip_text.specs.PieceStands.{progress_after};
ghost use Rattle.cip_text_rules.specs.BlockWords as text;
ghost use Rattle.cip_text_rules.specs.BlockSteps.{no_state};
ghost use Rattle.cip_blocks.specs.WordPlaces.{place_shown, block_of, is_below, is_sound_place};
ghost use Rattle.cip_blocks.specs.Keywords.{keyword_shown};

use crate::word_places::{RowPlace, WordPlace};
use crate::words::{Keyword, block_number, keyword_of};
use cip_model::Program;
use cip_text::fields_of;
use cip_text_rules::block_steps::block_words_have_tests;
use cip_text_rules::step_laws::numbers_are_of_names;
use std::alloc::{AllocError, Global};

/// What the words so far said: where the next word stands, how many blocks there are, if that was said, which of them
/// were begun, and the place of each row of the program.
#[derive(Drop)]
pub(crate) struct BlockWords<'a> {
    pub(crate) alloc: Global,
    pub(crate) program: &'a Program,
    pub(crate) place: WordPlace,
    pub(crate) count: Option<u32>,
    pub(crate) begun: Vec<bool>,
    pub(crate) rows: Vec<RowPlace>,
    ghost rows_sized: { vec_len rows ≡ length program.now.row_names },
    ghost begun_sized: { vec_len begun ≡ unwrap_or count 0 },
    ghost few: { vec_len begun ≤ 4096 },
    ghost below: { list_all (λ row. is_below (unwrap_or count 0) (block_of row)) rows.items ≡ true },
    ghost placed: { is_sound_place count place ≡ true },
}

impl<'a> BlockWords<'a> {
    ghost use Rattle.cip_blocks.specs.BlockWordsRead.{program_of, state_of, steps_of, IsTaken};

    /// Before the first word.
    pub(crate) fn new(alloc: Global, program: &'a Program) -> Result<BlockWords<'a>, AllocError>
        ensures program { IfOk result (λ words. program_of words ≡ program.now) }
        ensures state { IfOk result (λ words. state_of words ≡ no_state program.now) }
    {
        let mut rows = Vec::new(alloc);
        rows.resize(program.row_names().len(), RowPlace::Unnamed)?;
        Ok(BlockWords {
            alloc,
            program,
            place: WordPlace::KeywordDue,
            count: None,
            begun: Vec::new(alloc),
            rows,
        })
    }

    /// Takes one of the four words.
    fn open(&mut self, keyword: Keyword) -> Option<u32>
        ensures taken { IsTaken (program_of self.old) (state_of self.old) (state_of self.new)
            (text.keyword_said (place_shown self.old.place) (keyword_shown keyword)) result }
        ensures same { program_of self.new ≡ program_of self.old }
        ensures kinds { IfSome result (λ kind. (0 < kind) × (kind ≤ 9)) }
    {
        block_words_have_tests();
        match self.place {
            WordPlace::KeywordDue | WordPlace::NamesOf(_) => {}
            _ => return Some(1),
        }
        match keyword {
            Keyword::Presolved => self.place = WordPlace::ZeroDue,
            Keyword::BlockCount if self.count.is_some() => return Some(1),
            Keyword::BlockCount => self.place = WordPlace::CountDue,
            Keyword::Block if self.count.is_none() => return Some(1),
            Keyword::Block => self.place = WordPlace::BlockDue,
            Keyword::Master => self.place = WordPlace::NamesOf(None),
        }
        None
    }

    /// Takes the word behind `NBLOCKS`.
    fn take_count(&mut self, word: &[u8]) -> Result<Option<u32>, AllocError>
        requires { self.old.count ≡ None }
        ensures taken { IfOk result (IsTaken (program_of self.old) (state_of self.old) (state_of self.new)
            (text.other_said text.CountDue word.now)) }
        ensures same { program_of self.new ≡ program_of self.old }
        ensures kinds { IfOk result (λ kind. IfSome kind (λ k. (0 < k) × (k ≤ 9))) }
    {
        block_words_have_tests();
        match block_number(word) {
            Some(count) if count > 0 => {
                let mut begun = Vec::new(self.alloc);
                begun.resize(count as usize, false)?;
                self.begun = begun;
                self.count = Some(count);
                self.place = WordPlace::KeywordDue;
                Ok(None)
            }
            _ => Ok(Some(2)),
        }
    }

    /// Takes the word behind `BLOCK`.
    fn take_number(&mut self, word: &[u8]) -> Option<u32>
        ensures taken { IsTaken (program_of self.old) (state_of self.old) (state_of self.new)
            (text.other_said text.BlockDue word.now) result }
        ensures same { program_of self.new ≡ program_of self.old }
        ensures kinds { IfSome result (λ kind. (0 < kind) × (kind ≤ 9)) }
    {
        block_words_have_tests();
        let block = match block_number(word) {
            Some(number) if number > 0 => number - 1,
            _ => return Some(3),
        };
        let at = block as usize;
        if at >= self.begun.len() || self.begun[at] {
            return Some(3);
        }
        self.begun[at] = true;
        self.place = WordPlace::NamesOf(Some(block));
        None
    }

    /// Takes the name of a row of a block or of a master row.
    fn take_name(&mut self, block: Option<u32>, name: &[u8]) -> Option<u32>
        requires { self.old.place ≡ WordPlace.NamesOf block }
        ensures taken { IsTaken (program_of self.old) (state_of self.old) (state_of self.new)
            (text.RowName block name.now) result }
        ensures same { program_of self.new ≡ program_of self.old }
        ensures kinds { IfSome result (λ kind. (0 < kind) × (kind ≤ 9)) }
    {
        block_words_have_tests();
        numbers_are_of_names();
        let Some(number) = self.program.row_names().find(name) else {
            return Some(4);
        };
        match self.rows[number] {
            RowPlace::Named(_) => Some(5),
            RowPlace::Unnamed => {
                self.rows[number] = RowPlace::Named(block);
                None
            }
        }
    }

    /// Takes one word more, and says the kind of its fault, if it has one.
    fn take_word(&mut self, word: &[u8]) -> Result<Option<u32>, AllocError>
        ensures taken { IfOk result (IsTaken (program_of self.old) (state_of self.old) (state_of self.new)
            (text.word_said (place_shown self.old.place) word.now)) }
        ensures same { program_of self.new ≡ program_of self.old }
        ensures kinds { IfOk result (λ kind. IfSome kind (λ k. (0 < k) × (k ≤ 9))) }
    {
        block_words_have_tests();
        if let Some(keyword) = keyword_of(word) {
            return Ok(self.open(keyword));
        }
        match self.place {
            WordPlace::ZeroDue if word == b"0".as_slice() => {
                self.place = WordPlace::KeywordDue;
                Ok(None)
            }
            WordPlace::KeywordDue | WordPlace::ZeroDue => Ok(Some(1)),
            WordPlace::CountDue => self.take_count(word),
            WordPlace::BlockDue => Ok(self.take_number(word)),
            WordPlace::NamesOf(block) => Ok(self.take_name(block, word)),
        }
    }

    /// Takes one line more, and says the kind of its fault, if it has one.
    pub(crate) fn take_line(&mut self, line: &[u8]) -> Result<Option<u32>, AllocError>
        requires { list_any is_line_feed line.now ≡ false }
        ensures read { IfOk result (λ kind. (number : ℕ)
            → line_read (steps_of self.old) (Going (state_of self.old)) number line.now
            ≡ progress_after number kind (state_of self.new)) }
        ensures same { program_of self.new ≡ program_of self.old }
        ensures kinds { IfOk result (λ kind. IfSome kind (λ k. (0 < k) × (k ≤ 9))) }
    {
        let Some(mut left) = fields_of(line, b'\\') else {
            return Ok(None);
        };
        while let Some(word) = left.next_field() {
            if let Some(kind) = self.take_word(word)? {
                return Ok(Some(kind));
            }
        }
        Ok(None)
    }
}
