//! Labels of the objects that occur more than once.

ghost use Rattle.std.specs.Prelude.{◌≡◌, ◌<◌, ◌++◌, length, true, false, All, IfOk, OnOk, filter};
ghost use Rattle.std.specs.Prelude.{slice_index_or, decimal, vec_len, codes};
ghost use Rattle.text_print.specs.show.TextChunks.{First, Again, chunk_text, number_in};
ghost use Rattle.text_print.specs.print.Labels.{AreNumbers, AreLabels, IsBetween, IsMarkable};
ghost use Rattle.text_print.specs.print.Labels.{marks_after};

use crate::print::print_walk::PrintStep;
use base_data::model::Memory;
use base_data::text::{write, write_number};
use std::alloc::Global;

/// The objects that have labels, in the order of their labels.
#[derive(Drop)]
pub struct Labels {
    objects: Vec<u64>,
    // The least labelled object, if an object has a label.
    first: u64,
    // For each object from the least to the greatest labelled object, the number of the object's
    // label. For an object without a label, the number of all labels.
    numbers: Vec<u64>,
}

impl Labels {
    /// Returns the labels of `objects`, which are below `count`. The memory is proportional to the
    /// range between the least and the greatest of the objects.
    pub fn new(alloc: Global, objects: Vec<u64>, count: u64) -> Result<Labels, Memory>
        requires { All (λ o. o < count) objects.items }
        ensures objects { IfOk result (λ labels. labels.objects.items ≡ objects.items) }
        ensures labels { IfOk result AreLabels }
    {
        let LabelSpan { first, end } = span_of(&objects, count);
        let numbers = number_objects(alloc, &objects, first, end)?;
        Ok(Labels {
            objects,
            first,
            numbers,
        })
    }

    /// Appends the text before an object at its first occurrence. If the object has a label, the
    /// text contains the label.
    pub fn write_first(&self, text: &mut Vec<u8>, o: u64) -> Result<(), Memory>
        requires { AreLabels self.now }
        ensures { OnOk result
            (text.new.items ≡ text.old.items ++ chunk_text self.now.objects.items (First o)) }
    {
        let number = self.number_of(o);
        if number >= self.objects.len() as u64 {
            return Ok(());
        }
        write_label(text, number)?;
        write(text, b"=")
    }

    /// Appends the label of an object.
    pub fn write_again(&self, text: &mut Vec<u8>, o: u64) -> Result<(), Memory>
        requires { AreLabels self.now }
        ensures { OnOk result
            (text.new.items ≡ text.old.items ++ chunk_text self.now.objects.items (Again o)) }
    {
        write_label(text, self.number_of(o))
    }

    // Returns the number of an object's label, or the number of all labels if the object has no
    // label.
    #[inline(always)]
    fn number_of(&self, o: u64) -> u64
        requires { AreLabels self.now }
        ensures { result ≡ number_in self.now.objects.items o }
    {
        let many = self.objects.len() as u64;
        if o < self.first {
            return many;
        }
        let i = (o - self.first) as usize;
        if i >= self.numbers.len() {
            return many;
        }
        self.numbers[i]
    }
}

/// Appends the label with number `n`.
pub fn write_label(text: &mut Vec<u8>, n: u64) -> Result<(), Memory>
    ensures { OnOk result (text.new.items ≡ text.old.items ++ (codes "#" ++ decimal n)) }
{
    write(text, b"#")?;
    write_number(text, n)
}

/// If the step prints an object again, marks that object.
#[inline(always)]
pub fn mark_again(again: &mut Vec<bool>, step: PrintStep<'_>)
    requires { IsMarkable (vec_len again.old) step }
    ensures marks { again.new.items ≡ marks_after step.entry again.old.items }
    ensures len { vec_len again.new ≡ vec_len again.old }
{
    if let PrintStep::Again(o) = step {
        again[o as usize] = true;
    }
}

/// Returns the objects of `order` that are marked.
pub fn objects_again(alloc: Global, order: &[u64], again: &[bool]) -> Result<Vec<u64>, Memory>
    requires { All (λ o. o < length again.now) order.now }
    ensures { IfOk result
        (λ objects. objects.items ≡ filter (λ o. slice_index_or again.now o false) order.now) }
{
    let mut objects = Vec::new(alloc);
    for o in order {
        if again[*o as usize] {
            objects.push(*o)?;
        }
    }
    Ok(objects)
}

// The numbers from `first` up to `end`, exclusive.
struct LabelSpan {
    first: u64,
    end: u64,
}

// Returns the range of `objects`, which are below `count`.
fn span_of(objects: &[u64], count: u64) -> LabelSpan
    requires { All (λ o. o < count) objects.now }
    ensures { All (IsBetween result.first result.end) objects.now }
{
    let mut first = count;
    let mut end = 0;
    for o in objects {
        first = first.min(*o);
        end = end.max(*o + 1);
    }
    LabelSpan { first, end }
}

// Returns, for each number from `first` up to `end`, the index of the number among `objects`. For a
// number that is not in `objects`, the length of `objects` is returned.
fn number_objects(alloc: Global, objects: &[u64], first: u64, end: u64) -> Result<Vec<u64>, Memory>
    requires { All (IsBetween first end) objects.now }
    ensures { IfOk result (λ numbers. AreNumbers objects.now first numbers.items) }
{
    let mut k = objects.len();
    let many = end.saturating_sub(first);
    let mut numbers = vec![in alloc; k as u64; many as usize]?;
    while k > 0 {
        k -= 1;
        numbers[(objects[k] - first) as usize] = k as u64;
    }
    Ok(numbers)
}
