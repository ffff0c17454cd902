ghost use Rattle.std.specs.Prelude.{◌≡◌, [], length, replicate, IfOk};
ghost use Rattle.sem_outcomes.specs.Met.{AreMet};

use crate::steps::Step;
use sem_key::OutOfMemory;
use sem_msg::Setup;
use sem_numbering::{NumberLists, PartTree};
use std::alloc::Global;
use std::marker::Model;

/// The histories that a search has met, by number. History 0 is empty; history n goes on from an
/// earlier one by step n - 1.
#[derive(Debug, Drop)]
pub struct Histories {
    pub steps: Vec<Step>,
    /// For each history, the number of each kernel's part.
    pub numbers: NumberLists,
    /// The trees, by kernel.
    pub trees: Vec<PartTree>,
}

impl Model for Histories {
    ghost use Rattle.sem_outcomes.specs.Met.{HistoriesValue};

    ghost Value = { HistoriesValue };

    ghost view = { λ h. record {
      steps = h.steps.items;
      numbers = h.numbers;
      trees = h.trees.items;
    } };
}

impl Histories {
    /// Only the empty history.
    pub fn new(alloc: Global, setup: &Setup) -> Result<Self, OutOfMemory>
        ensures met { IfOk result (AreMet setup.now) }
        ensures none { IfOk result (λ h. h.steps ≡ []) }
    {
        let mut numbers = NumberLists::new(alloc);
        numbers.add(zeros(alloc, setup)?)?;
        Ok(Histories {
            steps: Vec::new(alloc),
            numbers,
            trees: empty_trees(alloc, setup)?,
        })
    }

    /// How many histories were met, the empty one among them.
    pub fn len(&self) -> usize
        ensures { result ≡ length self.now.numbers }
    {
        self.numbers.len()
    }
}

// A zero for each kernel.
fn zeros(alloc: Global, setup: &Setup) -> Result<Vec<u32>, OutOfMemory>
    ensures { IfOk result (λ numbers. numbers.items ≡ replicate setup.now.kernels 0) }
{
    let mut numbers = Vec::new(alloc);
    numbers.resize(setup.kernels as usize, 0)?;
    Ok(numbers)
}

// For each kernel a tree with only the empty part.
fn empty_trees(alloc: Global, setup: &Setup) -> Result<Vec<PartTree>, OutOfMemory>
    ensures { IfOk result (λ trees. trees.items ≡ replicate setup.now.kernels []) }
{
    let mut trees = Vec::new(alloc);
    for _ in 0..setup.kernels {
        trees.push(PartTree::new(alloc)?)?;
    }
    Ok(trees)
}
