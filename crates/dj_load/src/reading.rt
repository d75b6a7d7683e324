//! What files are, and the world that their classes make.

ghost use Rattle.std.specs.Prelude.{◌≡◌, ◌≤◌, ◌<◌, ◌+◌, ◌^◌, IfOk, List, OnOk, ℕ, length, map};
ghost use Rattle.std.specs.String.{string_bytes};
ghost use Rattle.std.specs.Option.{option_map};
ghost use Rattle.dj_load.specs.HeldFiles.{AreFiles, IsClassFile, IsFile, MakesWorld, most_files};
ghost use Rattle.dj_load.specs.Loading.{all_found, contents_of, finds_of, found_of, paths_of};

use crate::loading::{Library, OrderFiles};
use dj_class::{BrokenKind, ClassFault, ClassFile, read_class};
use dj_world::{AddFault, ClashKind, World};
use std::alloc::{AllocError, Global};

/// The oldest major version of a named file, that of Java SE 6.
const OLDEST_NAMED: u16 = 50;

/// The oldest major version of a library file, that of Java 1.1.
const OLDEST_LIBRARY: u16 = 45;

/// What is found of a file.
#[derive(Drop)]
pub enum Found {
    /// Its class is in the world.
    Class(ClassFile),
    /// Its class clashes with those of the files before it.
    Clash(ClashKind),
    /// What is wrong with it first, and at which offset.
    Broken { kind: BrokenKind, offset: u32 },
}

/// What is found of the files of an order, and the world that they and the core classes make.
#[derive(Drop)]
pub struct FoundFiles {
    /// What is found of the named files, in order.
    pub found: Vec<Found>,
    /// The path of the list of library files, where it isn't UTF-8.
    pub unread: Option<String>,
    /// The paths of library files, in order.
    pub paths: Vec<String>,
    /// What is found of these, in order.
    pub library: Vec<Found>,
    pub world: World,
}

/// Adds the class of a file to the world of those before it, and tells what the file is.
fn add_class(world: &mut World, class: ClassFile) -> Result<Found, AllocError>
    requires room { length world.old.members + 1 < 2 ^ 32 }
    requires fields { length class.fields < 2 ^ 32 }
    requires methods { length class.methods < 2 ^ 32 }
    ensures found { IfOk result (λ found. (oldest : ℕ) (bytes : List ℕ) → IsClassFile oldest bytes class → IsFile oldest world.old bytes (found_of found) world.new) }
{
    match world.add(&class) {
        Ok(()) => Ok(Found::Class(class)),
        Err(AddFault::Clash(kind)) => Ok(Found::Clash(kind)),
        Err(AddFault::Memory(error)) => Err(error),
    }
}

/// What the bytes of a file are, of this oldest version or a later one, whose class is added to the world of those before it.
fn read_file(
    alloc: Global,
    bytes: &[u8],
    oldest: u16,
    world: &mut World,
) -> Result<Found, AllocError>
    requires room { length world.old.members + 1 < 2 ^ 32 }
    ensures found { IfOk result (λ found. IsFile oldest world.old bytes.now (found_of found) world.new) }
{
    match read_class(alloc, bytes, oldest) {
        Ok(class) => add_class(world, class),
        Err(ClassFault::Broken { kind, offset }) => Ok(Found::Broken { kind, offset }),
        Err(ClassFault::Memory(error)) => Err(error),
    }
}

/// What each file is, of this oldest version or later ones, whose classes are added to the world.
fn add_files(
    alloc: Global,
    contents: &[Vec<u8>],
    oldest: u16,
    world: &mut World,
) -> Result<Vec<Found>, AllocError>
    requires room { length world.old.members + length contents.now < 2 ^ 32 }
    ensures found { IfOk result (λ found. AreFiles oldest world.old (contents_of contents.now) (all_found found.items) world.new) }
    ensures number { IfOk result (λ found. length found.items ≡ length contents.now) }
    ensures few { OnOk result (length world.new.members ≤ length world.old.members + length contents.now) }
{
    let mut found = Vec::new(alloc);
    for bytes in contents {
        found.push(read_file(alloc, bytes.as_slice(), oldest, world)?)?;
    }
    Ok(found)
}

/// What is found of the files of an order, with the paths of its library files.
fn with_paths(files: Library, found: Vec<Found>, library: Vec<Found>, world: World) -> FoundFiles
    ensures finds { finds_of result ≡ record { named = all_found found.items; unread = option_map string_bytes files.unread; paths = paths_of files; library = all_found library.items } }
    ensures found { result.found ≡ found }
    ensures library { result.library ≡ library }
    ensures world { result.world ≡ world }
{
    FoundFiles {
        found,
        unread: files.unread,
        paths: files.paths,
        library,
        world,
    }
}

/// What each file of an order is, and the world that their classes and the core classes make.
pub fn read_files(alloc: Global, files: OrderFiles) -> Result<FoundFiles, AllocError>
    requires few { length files.named.items + length files.library.contents.items ≤ most_files }
    ensures number { IfOk result (λ read. length read.found.items ≡ length files.named.items) }
    ensures library { IfOk result (λ read. length read.library.items ≡ length files.library.contents.items) }
    ensures unread { IfOk result (λ read. option_map string_bytes read.unread ≡ option_map string_bytes files.library.unread) }
    ensures paths { IfOk result (λ read. map string_bytes read.paths.items ≡ paths_of files.library) }
    ensures read { IfOk result (λ read. MakesWorld (contents_of files.named.items) (contents_of files.library.contents.items) (finds_of read) read.world) }
{
    let mut world = World::new(alloc);
    let found = add_files(alloc, files.named.as_slice(), OLDEST_NAMED, &mut world)?;
    let behind = files.library.contents.as_slice();
    let library = add_files(alloc, behind, OLDEST_LIBRARY, &mut world)?;
    world.fill()?;
    Ok(with_paths(files.library, found, library, world))
}
