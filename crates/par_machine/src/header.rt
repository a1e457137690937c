// What all processors work with.

ghost use Rattle.std.specs.Prelude.{◌≡◌, IfOk};
ghost use Rattle.icode.specs.Program.{plain_program};
ghost use Rattle.icode.specs.Headers.{without_statements};
ghost use Rattle.par_machine.specs.Header.{header_of};

use icode::copies::copied_tables;
use icode::header::shape_of;
use icode::program::Program;
use icode::shape::Shape;
use memory::NoMemory;
use std::alloc::Global;

/// The numbers of a program's header, and its tables.
#[derive(Drop)]
pub(crate) struct Header {
    pub(crate) shape: Shape,
    pub(crate) tables: Vec<Vec<u64>>,
}

impl Header {
    /// The program's header and tables.
    pub(crate) fn new(alloc: Global, program: &Program) -> Result<Self, NoMemory>
        ensures { IfOk result
            (λ header. header_of header ≡ without_statements (plain_program program.now)) }
    {
        let shape = shape_of(program);
        let tables = copied_tables(alloc, &program.tables)?;
        Ok(Header { shape, tables })
    }
}
