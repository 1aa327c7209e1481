//! Files in memory, and what a step does with one apart from the program.

use crate::step::Step;
use anyhow::{Result, bail};
use std::alloc::Global;
use vm_cli::{MemFiles, Place, refuse_words, stop};
use vm_disk::{Disk, MemDisk};

/// Files, and the disk of one that is out.
#[derive(Drop)]
pub struct Files {
    pub named: MemFiles,
    held: Option<MemDisk>,
}

/// The word with this number, counted from zero.
fn word(words: &[String], n: usize) -> Result<&str> {
    match words.get(n) {
        Some(word) => Ok(word.as_str()),
        None => bail!("a word is missing"),
    }
}

/// The number that the word with this number spells.
fn number(words: &[String], n: usize) -> Result<u32> {
    Ok(word(words, n)?.parse::<u32>()?)
}

impl Files {
    pub(crate) fn new(alloc: Global) -> Files {
        Files {
            named: MemFiles::new(alloc),
            held: None,
        }
    }

    /// Plays a step that uses only a file, or only the errors.
    pub(crate) fn play(&mut self, alloc: Global, step: &mut Step) -> Result<()> {
        let words = step.words.as_slice();
        let mut end = 0;
        match word(words, 0)? {
            "room" => self.named = MemFiles::with_room(alloc, number(words, 1)?),
            "create" => {
                let made = self.named.create(word(words, 1)?, number(words, 2)?);
                self.hold(made, &mut step.output.taken)?;
            }
            "find" => {
                let found = self.named.find(word(words, 1)?);
                self.hold(found, &mut step.output.taken)?;
            }
            "look" => {
                let found = self.named.look(word(words, 1)?);
                self.hold(found, &mut step.output.taken)?;
            }
            "give_back" => match self.held.take() {
                Some(disk) => self.named.give_back(word(words, 1)?, disk),
                None => bail!("no disk is out"),
            },
            "clear" => self.change(number(words, 1)?, None)?,
            "set" => {
                let byte = u8::try_from(number(words, 3)?)?;
                self.change(number(words, 1)?, Some((number(words, 2)? as usize, byte)))?;
            }
            "is_honest" => {
                let text = format!(in alloc; "{}\n", self.named.is_honest())?;
                step.output.taken.extend_from_slice(text.as_bytes())?;
            }
            "refuse_words" => end = refuse_words(&mut step.errors),
            "stop" => end = stop(&mut step.errors),
            verb => bail!("there is no step {verb}"),
        }
        step.end = end.to_string(alloc)?;
        Ok(())
    }

    /// Holds a disk that came, and says how many blocks it has.
    fn hold(&mut self, disk: Option<MemDisk>, output: &mut Vec<u8>) -> Result<()> {
        let Some(disk) = disk else {
            output.extend_from_slice(b"none\n")?;
            return Ok(());
        };
        let text = format!(in *output.allocator(); "blocks {}\n", disk.blocks())?;
        output.extend_from_slice(text.as_bytes())?;
        self.held = Some(disk);
        Ok(())
    }

    /// Changes a block of the disk that is out: one of its bytes, or all of them to zeros.
    fn change(&mut self, block: u32, byte: Option<(usize, u8)>) -> Result<()> {
        let mut bytes = [0; 4096];
        let Some(disk) = &mut self.held else {
            bail!("no disk is out");
        };
        if block >= disk.blocks() {
            bail!("there is no block {block}");
        }
        if let Some((at, byte)) = byte {
            if disk.read(block, &mut bytes).is_err() {
                bail!("block {block} cannot be read");
            }
            let Some(place) = bytes.get_mut(at) else {
                bail!("a block has no byte {at}");
            };
            *place = byte;
        }
        if disk.write(block, &bytes).is_err() {
            bail!("block {block} cannot be written");
        }
        Ok(())
    }
}
