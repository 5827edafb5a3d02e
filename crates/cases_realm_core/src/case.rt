//! A case: a world, and the steps that it is to make.
ghost use Rattle.std.specs.Prelude.{◌≤◌, IfSome};

use crate::churning::churn;
use crate::entries::{entry_of, step_of};
use crate::telling::{given_text, outcome_text, run_text};
use crate::words::{conn, number};
use case_items::{grant_of, unless_refused};
use case_text::{Table, line_of, part};
use realm_core::{Entry, RealmConfig, Step, World};
use std::alloc::{AllocError, Global};
use std::{io, mem};
use wamp_ids::Topic;

/// A world, the grants with which it is made, and the steps that were kept for a run.
#[derive(Drop)]
pub struct Case {
    grants: Vec<(String, String)>,
    world: Option<World>,
    steps: Vec<Step>,
}

impl Case {
    pub fn new(alloc: Global) -> Case {
        Case {
            grants: Vec::new(alloc),
            world: None,
            steps: Vec::new(alloc),
        }
    }
}

impl Table for Case {
    fn take(&mut self, alloc: Global, line: &str) -> io::Result<String> {
        let (word, rest) = part(line);
        match word {
            "#" => {
                *self = Case::new(alloc);
                line_of(alloc, line)
            }
            "grant" => self.grant(alloc, rest),
            "world" => self.make(alloc, rest),
            ">" => self.keep(alloc, rest),
            _ => match &mut self.world {
                None => line_of(alloc, "no world"),
                Some(world) => match word {
                    "run" => run(world, alloc, mem::replace(&mut self.steps, Vec::new(alloc))),
                    _ => asked(world, alloc, word, rest, line),
                },
            },
        }
    }
}

impl Case {
    fn grant(&mut self, alloc: Global, text: &str) -> io::Result<String> {
        self.grants.push(grant_of(alloc, text)?)?;
        Ok(String::new(alloc))
    }

    fn make(&mut self, alloc: Global, text: &str) -> io::Result<String> {
        let grants = mem::replace(&mut self.grants, Vec::new(alloc));
        let Some((inbox, outbox)) = capacities(text) else {
            return line_of(alloc, "no capacities");
        };
        self.world = Some(world_of(alloc, grants, inbox, outbox)?);
        Ok(String::new(alloc))
    }

    fn keep(&mut self, alloc: Global, text: &str) -> io::Result<String> {
        match step_of(alloc, text)? {
            None => line_of(alloc, "no such step"),
            Some(step) => {
                self.steps.push(step)?;
                Ok(String::new(alloc))
            }
        }
    }
}

/// The capacities of an inbox and of an outbox, each at least 1.
fn capacities(text: &str) -> Option<(usize, usize)>
    ensures { IfSome result (λ both. (1 ≤ both.0) × (1 ≤ both.1)) }
{
    let (inbox, outbox) = part(text);
    let inbox = capacity(inbox)?;
    let outbox = capacity(outbox)?;
    Some((inbox, outbox))
}

/// A capacity of at least 1.
fn capacity(text: &str) -> Option<usize>
    ensures { IfSome result (λ capacity. 1 ≤ capacity) }
{
    match number(text) {
        Some(number) => {
            if number == 0 || number > 1024 {
                None
            } else {
                Some(number as usize)
            }
        }
        None => None,
    }
}

fn world_of(
    alloc: Global,
    grants: Vec<(String, String)>,
    inbox: usize,
    outbox: usize,
) -> io::Result<World>
    requires inbox { 1 ≤ inbox }
    requires outbox { 1 ≤ outbox }
{
    let Ok(name) = Topic::read(alloc, "r.one") else {
        return Err(AllocError)?;
    };
    match World::new(alloc, RealmConfig { name, grants }, inbox, outbox) {
        Ok(world) => Ok(world),
        Err(_) => Err(AllocError)?,
    }
}

fn run(world: &mut World, alloc: Global, steps: Vec<Step>) -> io::Result<String> {
    let done = world.run(alloc, steps);
    unless_refused(run_text(alloc, &done)?)
}

/// What a line asks of a world, or the step that it names.
fn asked(
    world: &mut World,
    alloc: Global,
    word: &str,
    rest: &str,
    line: &str,
) -> io::Result<String> {
    match word {
        "live" => match conn(rest) {
            Some(conn) if world.is_live(conn) => line_of(alloc, "live"),
            _ => line_of(alloc, "not live"),
        },
        "rest" => {
            if world.is_at_rest() {
                line_of(alloc, "at rest")
            } else {
                line_of(alloc, "not at rest")
            }
        }
        "first" => first(world, alloc),
        "deliver" => match entry_of(alloc, rest)? {
            None => line_of(alloc, "no such entry"),
            Some(entry) => deliver(world, alloc, entry),
        },
        "churn" => unless_refused(churn(world, alloc, number(rest).unwrap_or(0))?),
        _ => match step_of(alloc, line)? {
            None => line_of(alloc, "no such step"),
            Some(step) => outcome_text(alloc, &world.step(alloc, step)),
        },
    }
}

fn first(world: &World, alloc: Global) -> io::Result<String> {
    match world.first_to_push() {
        None => line_of(alloc, "nobody"),
        Some(conn) => {
            let number = conn.value();
            Ok(format!(in alloc; "{number}\n")?)
        }
    }
}

fn deliver(world: &mut World, alloc: Global, entry: Entry) -> io::Result<String> {
    if !world.is_at_rest() {
        return line_of(alloc, "not at rest");
    }
    if !world.may_come(&entry) {
        return line_of(alloc, "may not come");
    }
    match world.deliver(alloc, entry) {
        Ok(given) => given_text(alloc, &given),
        Err(fault) => unless_refused(format!(in alloc; "{fault}\n")?),
    }
}
