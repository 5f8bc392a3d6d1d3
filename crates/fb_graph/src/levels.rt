//! Levels of methods, which tell those that are on no cycle, so that cycles are sought from few methods.
ghost use Rattle.std.specs.Prelude.{◌≡◌, ◌+◌, ◌<◌, ◌==◌, ◌↔◌, if◌then◌else◌, length, slice_index, IfOk, OnOk, IsTrue, count_by};
ghost use Rattle.fb_graph.specs.Levels.{NeverRise, AreLevels, AllBelow};

use crate::graph::CallGraph;
use std::alloc::{AllocError, Global};

/// What a depth-first walk still has to do.
#[derive(Clone, Copy)]
enum Task {
    Enter(u32),
    Leave(u32),
}

impl CallGraph {
    /// A level for each method, or no levels, where those of the walks rise at a call: then each method is at level 0.
    ///
    /// That methods have the same level only if they call each other is up to the walks. Where more have, cycles are
    /// sought from more of them.
    pub(crate) fn levels(
        &self,
        alloc: Global,
        reversed: &CallGraph,
    ) -> Result<Vec<usize>, AllocError>
        ensures fall { IfOk result (λ levels. NeverRise self.now levels.items) }
        ensures each { IfOk result (λ levels. AreLevels self.now levels.items) }
    {
        let levels = self.walked(alloc, reversed)?;
        if self.never_rise(&levels) {
            return Ok(levels);
        }
        Ok(Vec::new(alloc))
    }

    /// Levels from 1 by two depth-first walks. In the first, over the callers, a method is left after its callers, but
    /// for those on a cycle with it. So the second, from the last one back, comes to callees before their callers.
    fn walked(&self, alloc: Global, reversed: &CallGraph) -> Result<Vec<usize>, AllocError>
        ensures { IfOk result (λ levels. length levels.items ≡ length self.now) }
    {
        let len = self.len() as usize;
        let mut seen = vec![in alloc; 0; len]?;
        let mut left = Vec::new(alloc);
        for method in 0..self.len() {
            reversed.walk(alloc, method, 1, &mut seen, &mut left)?;
        }
        let mut levels = vec![in alloc; 0; len]?;
        let mut found = Vec::new(alloc);
        for (place, method) in left.iter().rev().enumerate() {
            self.walk(alloc, *method, place + 1, &mut levels, &mut found)?;
        }
        Ok(levels)
    }

    /// Gives the level to each method that has none and is reached over such methods, and adds it to those that are
    /// left once all that it calls are walked.
    fn walk(
        &self,
        alloc: Global,
        start: u32,
        level: usize,
        levels: &mut [usize],
        left: &mut Vec<u32>,
    ) -> Result<(), AllocError>
        requires { 0 < level }
    {
        let mut tasks = Vec::new(alloc);
        tasks.push(Task::Enter(start))?;
        while let Some(task) = tasks.pop() {
            match task {
                Task::Leave(method) => left.push(method)?,
                Task::Enter(method) => {
                    if give_level(levels, method, level) {
                        tasks.push(Task::Leave(method))?;
                        add_tasks(&mut tasks, self.callees(method))?;
                    }
                }
            }
        }
        Ok(())
    }

    /// Whether no call leads to a higher level.
    fn never_rise(&self, levels: &[usize]) -> bool
        ensures { IsTrue result ↔ NeverRise self.now levels.now }
    {
        for method in 0..self.len() {
            let level = level_of(levels, method);
            if self
                .callees(method)
                .iter()
                .any(|callee| level < level_of(levels, *callee))
            {
                return false;
            }
        }
        true
    }

    /// Whether each call of a method leads to a lower level.
    pub(crate) fn all_below(&self, levels: &[usize], method: u32) -> bool
        ensures { IsTrue result ↔ AllBelow self.now levels.now method }
    {
        let level = level_of(levels, method);
        self.callees(method)
            .iter()
            .all(|callee| level_of(levels, *callee) < level)
    }
}

/// Gives a method its level, where it has none.
fn give_level(levels: &mut [usize], method: u32, level: usize) -> bool
    requires { 0 < level }
    ensures { count_by (λ l. l == 0) levels.new + (if result then 1 else 0) ≡
        count_by (λ l. l == 0) levels.old }
{
    if level_of(levels, method) != 0 || method as usize >= levels.len() {
        return false;
    }
    levels[method as usize] = level;
    true
}

fn add_tasks(tasks: &mut Vec<Task>, methods: &[u32]) -> Result<(), AllocError>
    ensures { OnOk result (length tasks.new.items ≡ length tasks.old.items + length methods.now) }
{
    for method in methods {
        tasks.push(Task::Enter(*method))?;
    }
    Ok(())
}

/// The level of a method, 0 for one that has none.
fn level_of(levels: &[usize], method: u32) -> usize
    ensures { result ≡ slice_index levels.now method }
{
    levels.get(method as usize).copied().unwrap_or(0)
}
