//! What a fault file configures.
ghost use Rattle.std.specs.Prelude.{◌≡◌, ◌<◌, [], length, IfOk};
ghost use Rattle.fb_base.specs.declared.method.MethodId.{MethodId as Number};
ghost use Rattle.fb_campaign.specs.Runs.{AreChoices};
ghost use Rattle.fb_check.specs.Programs.{kinds_given};
ghost use Rattle.fb_config.specs.Documents.{Gives};
ghost use Rattle.fb_config.specs.FaultFiles.{faults_read};
ghost use Rattle.fb_config.specs.Choices.{choice_table, choices_for, kind_given, no_items};
ghost use Rattle.fb_config.specs.Fitting.{ChoosesValuesInVersion2, EachFits, IsOfItsVersion, IsVersion};

use crate::choices::{ChoiceTable, choices_by_number};
use crate::error::FaultsError;
use crate::fault_file::FaultFile;
use crate::read_file::read_file;
use fb_base::{List, MethodId, Reply};
use fb_check::{Program, lookups_join};
use std::alloc::{AllocError, Global};
use std::marker::Model;

/// The replies with which calls of a program's methods may be answered in place of the methods.
///
/// It is seen as the version of the file that configures them, the kind that each method gives, and the choices for each,
/// both by number.
#[derive(Drop)]
pub struct Faults {
    table: ChoiceTable,
}

impl Model for Faults {
    ghost use Rattle.fb_config.specs.declared.choices.ChoiceTable.{ChoiceTable as Table};
    ghost use Rattle.fb_config.specs.Fitting.{IsChoiceTable};

    ghost Value = { Table };

    ghost view = { λ f. f.table };

    ghost invariant = { λ f. IsChoiceTable f.table };
}

impl Faults {
    /// What a file configures, whose items fit the methods that they mean.
    #[tactic(auto, unfolding(crate::specs::Choices::choice_table))]
    fn of(alloc: Global, program: &Program, file: FaultFile) -> Result<Faults, AllocError>
        requires fitting { EachFits program.now.tree file.items }
        requires versions { IsOfItsVersion file }
        ensures table { IfOk result (λ faults. faults ≡ choice_table program.now.tree file) }
        ensures kinds { IfOk result (λ faults. faults.kinds ≡ kinds_given program.now.tree) }
    {
        let kinds = List::of(Vec::from_slice(alloc, program.kinds())?);
        let choices = choices_by_number(alloc, program, file.items.as_slice())?;
        Ok(Faults {
            table: ChoiceTable {
                version: file.version,
                kinds,
                choices,
            },
        })
    }

    /// No choices for any method, as an empty file has it.
    pub fn none(alloc: Global, program: &Program) -> Result<Faults, AllocError>
        ensures table { IfOk result (λ faults. faults ≡ choice_table program.now.tree no_items) }
        ensures kinds { IfOk result (λ faults. faults.kinds ≡ kinds_given program.now.tree) }
        ensures empty { IfOk result (λ faults. (method : Number) → choices_for faults method ≡ []) }
    {
        let file = FaultFile {
            version: 1,
            items: List::new(alloc),
        };
        Faults::of(alloc, program, file)
    }

    /// The version of the file, 1 where there is none.
    pub fn version(&self) -> u32
        ensures { result ≡ self.now.version }
    {
        self.table.version
    }

    /// The choices for a method, in file order.
    pub fn choices_for(&self, method: MethodId) -> &[Reply]
        requires { method.0 < length self.now.kinds }
        ensures { result.now ≡ choices_for self.now method }
    {
        self.table.choices.as_slice()[method.0 as usize].as_slice()
    }

    /// What holds of all choices: they fit their methods' kinds, those of one method differ, and each method has a list. In
    /// version 1 all are errors.
    pub fn proper(&self)
        ensures choices { AreChoices (kind_given self.now) (choices_for self.now) }
        ensures counted { length self.now.choices ≡ length self.now.kinds }
        ensures version { IsVersion self.now.version }
        ensures values { ChoosesValuesInVersion2 self.now }
    {
        let _table = &self.table;
    }
}

/// Reads a fault file, whose items name services and methods of the program. Want of memory aside, it answers by the
/// file's first refusal.
///
/// Its time grows with the file, and with its items times the services and times the methods of each one's service.
#[tactic(auto, unfolding(crate::specs::FaultFiles::faults_read))]
pub fn read_faults(alloc: Global, bytes: &[u8], program: &Program) -> Result<Faults, FaultsError>
    ensures read { Gives (λ faults. faults) (faults_read program.now.tree bytes.now) result }
    ensures kinds { IfOk result (λ faults. faults.kinds ≡ kinds_given program.now.tree) }
{
    lookups_join();
    let file = read_file(alloc, program, bytes)?;
    Ok(Faults::of(alloc, program, file)?)
}
