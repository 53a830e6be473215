// Instances, whose interfaces are idle where they don't run.
ghost use Rattle.std.specs.Prelude.{◌≡◌, ◌++◌, IfOk, List, OnOk, map, option_map, ℕ};
ghost use Rattle.std.specs.List.{flat_map};
ghost use Rattle.serde_json.specs.View.{view};
ghost use Rattle.json_fields.specs.FieldFault.{Reads};
ghost use Rattle.vpc_model.specs.Lookup.{is_listed};
ghost use Rattle.bundle.specs.Instances.{AreNumbersOf, all_stopped, idle_by, instances_of, interface_of, is_running, stopped_by, stopped_in, stopped_of};

use json_fields::{FieldFault, Path, ReadRow, id_at, read_items, read_list, str_if_within};
use reference_check::FirstNumbers;
use serde_json::Value;
use std::alloc::{AllocError, Global};
use vpc_base::OwnList;
use vpc_model::{Id, Interface};

fn is_running(state: Option<&str>) -> bool
    ensures { result ≡ is_running (option_map (λ s. s.now) state.entry) }
{
    match state {
        Some(state) => state == "pending" || state == "running",
        None => true,
    }
}

fn interface_of(alloc: Global, row: &Value, path: &Path) -> Result<Id, FieldFault>
    ensures { Reads (λ x. x) (interface_of (view row.now) path.now) result }
{
    id_at(alloc, row, path, "NetworkInterfaceId")
}

/// The rows of an instance's `NetworkInterfaces`.
struct InterfacesOf;

impl ReadRow for InterfacesOf {
    type Row = Id;

    ghost meaning = { interface_of };

    fn read(alloc: Global, row: &Value, path: &Path) -> Result<Id, FieldFault> {
        interface_of(alloc, row, path)
    }
}

fn stopped_by(alloc: Global, row: &Value, path: &Path) -> Result<OwnList<Id>, FieldFault>
    ensures { Reads (λ x. x) (stopped_by (view row.now) path.now) result }
{
    let _ = id_at(alloc, row, path, "InstanceId")?;
    let running = match str_if_within(alloc, row, path, "State", "Name") {
        Ok(state) => is_running(state),
        Err(fault) => return Err(fault),
    };
    let interfaces = read_items::<InterfacesOf>(alloc, row, path, "NetworkInterfaces")?;
    if running {
        return Ok(OwnList::of(Vec::new(alloc)));
    }
    Ok(OwnList::of(interfaces))
}

/// The rows of a reservation's `Instances`.
struct Instances;

impl ReadRow for Instances {
    type Row = OwnList<Id>;

    ghost meaning = { stopped_by };

    fn read(alloc: Global, row: &Value, path: &Path) -> Result<OwnList<Id>, FieldFault> {
        stopped_by(alloc, row, path)
    }
}

fn stopped_in(alloc: Global, row: &Value, path: &Path) -> Result<OwnList<OwnList<Id>>, FieldFault>
    ensures { Reads (λ x. x) (stopped_in (view row.now) path.now) result }
{
    let instances = read_items::<Instances>(alloc, row, path, "Instances")?;
    Ok(OwnList::of(instances))
}

/// The rows of `Reservations`.
struct Reservations;

impl ReadRow for Reservations {
    type Row = OwnList<OwnList<Id>>;

    ghost meaning = { stopped_in };

    fn read(alloc: Global, row: &Value, path: &Path) -> Result<OwnList<OwnList<Id>>, FieldFault> {
        stopped_in(alloc, row, path)
    }
}

// Adds ids after those that are there.
fn add_ids(all: &mut Vec<Id>, ids: OwnList<Id>) -> Result<(), AllocError>
    ensures { OnOk result (all.new.items ≡ all.old.items ++ ids) }
{
    let mut ids = ids.into_vec();
    all.append(&mut ids)
}

// The interfaces of the instances of a reservation that don't run.
fn stopped_among(alloc: Global, instances: OwnList<OwnList<Id>>) -> Result<OwnList<Id>, AllocError>
    ensures { IfOk result (λ v. v ≡ flat_map (λ ids. ids) instances) }
{
    let mut stopped = Vec::new(alloc);
    for interfaces in instances.into_vec() {
        add_ids(&mut stopped, interfaces)?;
    }
    Ok(OwnList::of(stopped))
}

fn all_stopped(
    alloc: Global,
    reservations: Vec<OwnList<OwnList<Id>>>,
) -> Result<Vec<Id>, AllocError>
    ensures { IfOk result (λ v. v.items ≡ all_stopped reservations.items) }
{
    let mut stopped = Vec::new(alloc);
    for instances in reservations {
        let ids = stopped_among(alloc, instances)?;
        add_ids(&mut stopped, ids)?;
    }
    Ok(stopped)
}

fn stopped_of(alloc: Global, bundle: &Value) -> Result<Vec<Id>, FieldFault>
    ensures { Reads (λ v. v.items) (stopped_of (view bundle.now)) result }
{
    let reservations = read_list::<Reservations>(alloc, bundle, "Reservations")?;
    Ok(all_stopped(alloc, reservations)?)
}

fn is_stopped(numbers: &FirstNumbers, id: &Id) -> bool
    ensures { (stopped : List (List ℕ)) → AreNumbersOf numbers.now stopped → result ≡ is_listed id.now stopped }
{
    numbers.get(id.bytes()).is_some()
}

// An interface, idle where its id is among those of the numbers.
fn idle_among(numbers: &FirstNumbers, interface: Interface) -> Interface
    ensures { (stopped : List (List ℕ)) → AreNumbersOf numbers.now stopped → result ≡ idle_by stopped interface }
{
    let stopped = is_stopped(numbers, &interface.id);
    Interface {
        idle: interface.idle || stopped,
        ..interface
    }
}

// The interfaces, idle where they are among the stopped ones.
fn idle_by(
    alloc: Global,
    stopped: &[Id],
    interfaces: Vec<Interface>,
) -> Result<Vec<Interface>, AllocError>
    ensures { IfOk result (λ v. v.items ≡ map (idle_by stopped.now) interfaces.items) }
{
    let numbers = FirstNumbers::of(alloc, stopped)?;
    let mut all = Vec::with_capacity(alloc, interfaces.len())?;
    for interface in interfaces {
        all.push(idle_among(&numbers, interface))?;
    }
    Ok(all)
}

/// The interfaces with what the bundle's `Reservations` tell of their instances: an instance whose state is told
/// and is neither `pending` nor `running` has idle interfaces (EC2 API, DescribeInstances).
pub fn read_instances(
    alloc: Global,
    bundle: &Value,
    interfaces: Vec<Interface>,
) -> Result<Vec<Interface>, FieldFault>
    ensures { Reads (λ v. v.items) (instances_of (view bundle.now) interfaces.items) result }
{
    let stopped = stopped_of(alloc, bundle)?;
    Ok(idle_by(alloc, stopped.as_slice(), interfaces)?)
}
