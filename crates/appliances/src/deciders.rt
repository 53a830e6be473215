// A closure beside the boxes that it stands for.
ghost use Rattle.std.specs.Prelude.{◌≡◌, ◌<◌, ◌^◌, Bool, IfOk, length, slice_get, ℕ};
ghost use Rattle.number_tables.specs.Entries.{value_at};
ghost use Rattle.box_images.specs.Answers.{Answers};
ghost use Rattle.box_images.specs.Images.{IsImageOfWalk, IsValidImage, header_at};
ghost use Rattle.cut_laws.specs.Dividing.{Divide};
ghost use Rattle.vpc_model.specs.Cuts.{all_cuts, cuts_of_box};
ghost use Rattle.vpc_model.specs.declared.numbers.EniNo.{EniNo};
ghost use Rattle.appliances.specs.Passing.{boxes_of, number_of, passes_at};

use crate::on_images::passes_on;
use box_images::{Image, Part};
use header_boxes::Box5;
use number_tables::{Entry, NumberTable};
use std::alloc::{AllocError, Global};
use vpc_base::{Header, NoMemory, OwnList};
use vpc_model::EniNo;

/// Whether the appliance of a number forwards a header.
pub type Decide = Box<dyn Fn(u32, &Header) -> bool>;

/// Appliances by their numbers, from 0, and a closure that decides what they forward. Contracts name
/// the interfaces with their boxes.
#[derive(Drop)]
pub struct Deciders {
    appliances: OwnList<(EniNo, OwnList<Box5>)>,
    numbers: NumberTable<u32>,
    decide: Decide,
    ghost numbered: { (e : EniNo) → value_at e.0 numbers ≡ number_of appliances e },
    ghost callable: { (k : ℕ) (h : _) → k < length appliances → Decide.pre decide k h },
    ghost answers: { (k : ℕ) (h : _) (r : Bool) → k < length appliances
        → Decide.post decide k h r → r ≡ passes_at appliances k h.now },
}

fn numbers_of(
    alloc: Global,
    rows: &[(EniNo, OwnList<Box5>)],
) -> Result<NumberTable<u32>, AllocError>
    requires { length rows.now < 2 ^ 32 }
    ensures { IfOk result (λ t. (e : EniNo) → value_at e.0 t ≡ number_of rows.now e) }
{
    let mut entries = Vec::with_capacity(alloc, rows.len())?;
    for (number, row) in rows.iter().enumerate() {
        entries.push(Entry {
            key: u64::from(row.0.0),
            value: number as u32,
        })?;
    }
    NumberTable::of(entries)
}

impl Deciders {
    /// Appliances with the boxes of what each forwards, and a closure that decides by the number of the
    /// appliance as these boxes do. Of two at one interface the first counts.
    pub fn of(
        alloc: Global,
        appliances: OwnList<(EniNo, OwnList<Box5>)>,
        decide: Decide,
    ) -> Result<Deciders, NoMemory>
        requires few { length appliances < 2 ^ 32 }
        requires callable { (k : ℕ) (h : _) → k < length appliances → Decide.pre decide k h }
        requires answers { (k : ℕ) (h : _) (r : Bool) → k < length appliances
            → Decide.post decide k h r → r ≡ passes_at appliances k h.now }
        ensures { IfOk result (λ d. d.appliances ≡ appliances) }
    {
        let numbers = numbers_of(alloc, appliances.as_slice())?;
        Ok(Deciders {
            appliances,
            numbers,
            decide,
        })
    }

    /// The number of the appliance at an interface.
    pub fn number(&self, e: EniNo) -> Option<u32>
        ensures { result ≡ number_of self.now.appliances e }
    {
        self.numbers.get(u64::from(e.0))
    }

    /// Whether the appliance of this number forwards the header. It asks the closure.
    pub fn passes(&self, k: u32, h: &Header) -> bool
        requires { k < length self.now.appliances }
        ensures { result ≡ passes_at self.now.appliances k h.now }
    {
        (self.decide)(k, h)
    }

    /// Whether the appliance of this number forwards the headers of an image. It asks the boxes, not the
    /// closure: those up to the first one that has the low corner.
    pub fn passes_on(&self, k: u32, i: &Image) -> Part<bool>
        requires number { k < length self.now.appliances }
        requires valid { IsValidImage i.now }
        requires walk { IsImageOfWalk i.now }
        ensures { Answers (Divide (all_cuts cuts_of_box (boxes_of (slice_get self.now.appliances k))))
            (λ h. passes_at self.now.appliances k (header_at i.now h)) i.now.part result }
    {
        let boxes = self.appliances.as_slice()[k as usize].1.as_slice();
        passes_on(boxes, i)
    }
}
