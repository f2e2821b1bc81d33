ghost use Rattle.std.specs.Prelude.{◌≡◌, ◌+◌, ◌*◌, ◌≤◌, ◌<◌, ◌^◌, ◌++◌, flat_map, replicate};
ghost use Rattle.std.specs.Prelude.{◌-◌, IfOk, OnOk};
ghost use Rattle.std.specs.Fmt.{decimal};
ghost use Rattle.lore_base.specs.declared.values.Value.TheVariants.{Complex, Chars};
ghost use Rattle.oem_text.specs.Types.{SEED, MOST_PERSONS};
ghost use Rattle.oem_text.specs.Literals.{numbered};
ghost use Rattle.oem_text.specs.Generated.{generated_values, person_values, numbers_from};
ghost use Rattle.oem_text.specs.Generated.{drawn_after, age_from};
ghost use Rattle.oem_text.specs.Generated as spec;

use itoa::Buffer;
use lore_base::{NoMemory, ObjectList, OemText, Oid, Out, Value};
use std::alloc::Global;

// The objects of so many persons by this seed, numbered from `next` on.
pub(crate) fn objects_of(
    alloc: Global,
    seed: u32,
    count: u32,
    next: u64,
) -> Result<ObjectList, NoMemory>
    requires few { count ≤ MOST_PERSONS }
    requires seed { seed ≤ SEED }
    requires numbers { next + (4 * count + 111) ≤ 2 ^ 32 }
    ensures { IfOk result (λ objects. objects ≡ numbered next (generated_values seed count)) }
{
    let mut objects = ObjectList::with_capacity(alloc, 4 * count as usize + 111)?;
    put_complex(next, 1, &mut objects)?;
    put_persons(alloc, seed, count, next + 1, &mut objects)?;
    let behind = next + 1 + 4 * u64::from(count);
    put_complex(behind, 110, &mut objects)?;
    Ok(objects)
}

// So many complex objects, numbered from `first` on.
fn put_complex(first: u64, count: u32, objects: &mut ObjectList) -> Result<(), NoMemory>
    requires { first + count ≤ 2 ^ 32 }
    ensures { OnOk result (objects.new ≡ objects.old ++ numbered first (replicate count Complex)) }
{
    'objects: for place in 0..count {
        let number = first + u64::from(place);
        objects.push((Oid(number as u32), Value::Complex))?;
    }
    Ok(())
}

// The persons with their atoms, numbered from `first` on.
fn put_persons(
    alloc: Global,
    seed: u32,
    count: u32,
    first: u64,
    objects: &mut ObjectList,
) -> Result<(), NoMemory>
    requires few { count ≤ MOST_PERSONS }
    requires seed { seed ≤ SEED }
    requires numbers { first + 4 * count ≤ 2 ^ 32 }
    ensures { OnOk result (objects.new
        ≡ objects.old ++ numbered first (flat_map (person_values seed) (numbers_from 1 count))) }
{
    let mut number = u64::from(seed);
    'persons: for place in 0..count {
        number = number_after(number);
        let person = first + 4 * u64::from(place);
        put_person(alloc, place + 1, age_of(number), person, objects)?;
    }
    Ok(())
}

// The random number behind this one.
fn number_after(number: u64) -> u64
    requires { number < 2 ^ 31 }
    ensures next { result ≡ drawn_after number }
    ensures small { result < 2 ^ 31 }
{
    (1_103_515_245 * number + 12_345) % 2_147_483_648
}

// The age that a random number stands for.
fn age_of(number: u64) -> u32
    requires { number < 2 ^ 31 }
    ensures { result ≡ age_from number }
{
    18 + ((number / 65_536) % 60) as u32
}

// Person i with its id, name and age, numbered from `first` on.
fn put_person(
    alloc: Global,
    i: u32,
    age: u32,
    first: u64,
    objects: &mut ObjectList,
) -> Result<(), NoMemory>
    requires { first + 4 ≤ 2 ^ 32 }
    ensures { OnOk result
        (objects.new ≡ objects.old ++ numbered first (spec.values_of_person i age)) }
{
    let name = number_text(alloc, b"p", i)?;
    let age = age_value(alloc, i, age)?;
    let first = first as u32;
    objects.push((Oid(first), Value::Complex))?;
    objects.push((Oid(first + 1), Value::Whole(i64::from(i))))?;
    objects.push((Oid(first + 2), Value::Chars(name)))?;
    objects.push((Oid(first + 3), age))?;
    Ok(())
}

// The age of person i as a value: a text for each seventh person.
fn age_value(alloc: Global, i: u32, age: u32) -> Result<Value, NoMemory>
    ensures { IfOk result (λ value. value ≡ spec.age_value i age) }
{
    if i % 7 == 0 {
        return Ok(Value::Chars(number_text(alloc, b"", age)?));
    }
    Ok(Value::Whole(i64::from(age)))
}

// The decimal text of a number behind some bytes.
fn number_text(alloc: Global, before: &[u8], number: u32) -> Result<OemText, NoMemory>
    ensures { IfOk result (λ text. text ≡ before.now ++ decimal number) }
{
    let mut text = OemText::from_bytes(alloc, before)?;
    text.put(Buffer::new().format(number).as_bytes())?;
    Ok(text)
}
