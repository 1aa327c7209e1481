//! Playing the steps of a case.

use crate::differences::push_differences;
use crate::files::Files;
use crate::pipes::Input;
use crate::script::Case;
use crate::step::Step;
use anyhow::{Context, Result, bail};
use std::alloc::Global;
use std::fmt::Write;
use vm_cli::{
    Grouping, InMemory, Job, Manner, OnCommand, OnRefusal, buffer_for, job, run_words, serve,
    serve_batches, serve_planners,
};
use vm_disk::{FuseDisk, MemDisk};
use vm_store::{Store, format, open};

/// Plays a case, and says where it gave something other than expected.
pub(crate) fn play(alloc: Global, mut case: Case<'_>) -> Result<String> {
    if case.steps.is_empty() || case.title.is_empty() {
        bail!("a case has no steps or no title");
    }
    match case.store {
        Some(passes) => play_sessions(alloc, passes, case.steps.as_mut_slice())?,
        None => {
            let mut files = Files::new(alloc);
            for step in &mut case.steps {
                let number = step.number;
                play_step(alloc, &mut files, step).context(format_args!("line {number}"))?;
            }
        }
    }
    let mut text = String::new(alloc);
    for step in &case.steps {
        if case.differs {
            look_for_differences(alloc, step, &mut text)?;
        } else {
            push_differences(step, &mut text)?;
        }
    }
    Ok(text)
}

/// Appends that a step gave exactly what was expected, though it should have differed.
fn look_for_differences(alloc: Global, step: &Step, text: &mut String) -> Result<()> {
    let mut differences = String::new(alloc);
    push_differences(step, &mut differences)?;
    if differences.is_empty() {
        writeln!(text, "    the step of line {} does not differ", step.number)?;
    }
    Ok(())
}

/// Plays a step that is not a session.
fn play_step(alloc: Global, files: &mut Files, step: &mut Step) -> Result<()> {
    let Some((first, others)) = step.words.as_slice().split_first() else {
        bail!("a step has no words");
    };
    match first.as_str() {
        "altctl" => {
            let mut input = Input {
                bytes: step.input.as_bytes(),
                fails: step.input_fails,
            };
            let status = run_words(
                alloc,
                step.words.as_slice(),
                &mut files.named,
                &mut input,
                &mut step.output,
                &mut step.errors,
            );
            step.end = status.to_string(alloc)?;
        }
        "job" => {
            step.output.taken = asked(alloc, others)?;
            step.end.push('0')?;
        }
        _ => files.play(alloc, step)?,
    }
    Ok(())
}

/// The job that words ask for.
fn asked(alloc: Global, words: &[String]) -> Result<Vec<u8>> {
    let asked = match job(alloc, words) {
        Ok(
            Job::Run {
                file,
                in_memory,
                manner,
            },
        ) => format!(in alloc;
            "{} {file}, cache {}, buffer {}, {:?}, {:?}\n",
            word_of(manner.grouping),
            in_memory.cache,
            buffers(alloc, in_memory)?,
            manner.on_refusal,
            manner.on_command
        )?,
        Ok(
            Job::Do {
                file,
                input,
                in_memory,
                manner,
            },
        ) => format!(in alloc;
            "do {file}, cache {}, buffer {}, {:?}, {:?}\n{}",
            in_memory.cache,
            buffers(alloc, in_memory)?,
            manner.on_refusal,
            manner.on_command,
            String::from_utf8(input)?
        )?,
        Ok(_) => bail!("a job that is not asked for here"),
        Err(error) => format!(in alloc; "{:?}\n", error.kind())?,
    };
    Ok(asked.into_bytes())
}

/// How many written blocks may wait in stores of 64, 100,000 and 67,108,864 blocks.
fn buffers(alloc: Global, in_memory: InMemory) -> Result<String> {
    let said = in_memory.buffer;
    Ok(format!(in alloc;
        "{} {} {}",
        buffer_for(said, 64),
        buffer_for(said, 100_000),
        buffer_for(said, 67_108_864)
    )?)
}

/// Plays sessions over a new store of 64 blocks. Its device fails once, after this many calls.
fn play_sessions(alloc: Global, passes: u32, steps: &mut [Step]) -> Result<()> {
    let disk = match format(MemDisk::new(alloc, 64)?, 64) {
        Ok(disk) => disk,
        Err((_, refusal)) => bail!("{refusal}"),
    };
    let fuse = FuseDisk::once(disk, passes.min(1_000_000), [9; 4096]);
    let mut store = match open(alloc, fuse) {
        Ok(store) => store,
        Err((_, refusal)) => bail!("{refusal}"),
    };
    let mut played = Ok(());
    for step in steps {
        if played.is_ok() {
            played = play_session(alloc, &mut store, step);
        }
    }
    let _disk = store.close();
    played
}

/// The words of a session.
fn word_of(grouping: Grouping) -> &'static str {
    match grouping {
        Grouping::Lines => "run",
        Grouping::Batches => "serve",
        Grouping::Planners => "serve --planners",
    }
}

/// The manner of a session that words give: `serve ignore`, `tell` or `stop`, followed by
/// `read-only` if commands are refused, by `batches` if lines come in batches, or by `planners` if
/// they are those of many planners.
fn manner(words: &[String]) -> Result<Manner> {
    let (meaning, on_command, grouping) = match words {
        [verb, meaning] if verb.as_str() == "serve" => {
            (meaning, OnCommand::CarryOut, Grouping::Lines)
        }
        [verb, meaning, more] if verb.as_str() == "serve" && more.as_str() == "read-only" => {
            (meaning, OnCommand::Refuse, Grouping::Lines)
        }
        [verb, meaning, more] if verb.as_str() == "serve" && more.as_str() == "batches" => {
            (meaning, OnCommand::CarryOut, Grouping::Batches)
        }
        [verb, meaning, more] if verb.as_str() == "serve" && more.as_str() == "planners" => {
            (meaning, OnCommand::CarryOut, Grouping::Planners)
        }
        _ => bail!("a step over a store is a session"),
    };
    let on_refusal = match meaning.as_str() {
        "ignore" => OnRefusal::Ignore,
        "tell" => OnRefusal::Tell,
        "stop" => OnRefusal::Stop,
        _ => bail!("no meaning of a refused line"),
    };
    Ok(Manner {
        on_command,
        on_refusal,
        grouping,
    })
}

/// Plays a session.
fn play_session(
    alloc: Global,
    store: &mut Store<FuseDisk<MemDisk>>,
    step: &mut Step,
) -> Result<()> {
    let manner = manner(step.words.as_slice())?;
    let mut input = Input {
        bytes: step.input.as_bytes(),
        fails: step.input_fails,
    };
    let output = &mut step.output;
    let served = match manner.grouping {
        Grouping::Lines => serve(alloc, &mut input, output, store, manner),
        Grouping::Batches => serve_batches(alloc, &mut input, output, store, manner),
        Grouping::Planners => serve_planners(alloc, &mut input, output, store, manner),
    };
    step.end = match served {
        Ok(false) => String::from_str(alloc, "0")?,
        Ok(true) => String::from_str(alloc, "a line was refused")?,
        Err(fault) => format!(in alloc; "the session ended: {fault}")?,
    };
    Ok(())
}
