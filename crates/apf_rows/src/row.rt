//! One flow's account, with its names.

ghost use Rattle.std.specs.Prelude.{◌≡◌, ◌<◌, [], IfOk, OnOk, OnErr};
ghost use Rattle.apf_flows.specs.Names.{names_text};
ghost use Rattle.apf_rows.specs.Accounts.{IsAccount};
ghost use Rattle.apf_rows.specs.Rows.{NamesRow};

use crate::account::Account;
use apf_times::Arrival;
use apf_traces::{FlowNames, TraceRequest};
use std::alloc::{AllocError, Global};

/// What one flow's requests came to.
#[derive(Drop)]
pub struct Row {
    /// The hash of the flow.
    pub hash: u64,
    /// The number of the flow's first line.
    pub first: u64,
    /// The names of that line.
    pub names: Option<FlowNames>,
    pub account: Account,
}

// The same names.
fn copy(names: &Option<FlowNames>) -> Result<Option<FlowNames>, AllocError>
    ensures { IfOk result (λ copied. names_text copied ≡ names_text names.now) }
{
    let Some(names) = names else {
        return Ok(None);
    };
    let schema = names.schema.clone()?;
    let distinguisher = names.distinguisher.clone()?;
    Ok(Some(FlowNames {
        schema,
        distinguisher,
    }))
}

impl Row {
    /// Of the flow of this request, of which none was told.
    ///
    /// # Errors
    ///
    /// `AllocError` if memory was refused.
    pub(crate) fn of(alloc: Global, came: &Arrival<TraceRequest>) -> Result<Row, AllocError>
        ensures hash { IfOk result (λ r. r.hash ≡ came.now.item.hash) }
        ensures first { IfOk result (λ r. r.first ≡ came.now.place.line) }
        ensures names { IfOk result (λ r. names_text r.names ≡ names_text came.now.item.names) }
        ensures nobody { IfOk result (λ r. IsAccount [] r.account) }
    {
        let names = copy(&came.item.names)?;
        Ok(Row {
            hash: came.item.hash,
            first: came.place.line,
            names,
            account: Account::new(alloc),
        })
    }

    /// A request of the flow came: if its line is lower than the first one, it is the first one now.
    ///
    /// # Errors
    ///
    /// `AllocError` if memory was refused. Then nothing changes.
    pub(crate) fn meet(&mut self, came: &Arrival<TraceRequest>) -> Result<(), AllocError>
        ensures named { OnOk result (NamesRow came.now self.old self.new) }
        ensures hash { self.new.hash ≡ self.old.hash }
        ensures account { self.new.account ≡ self.old.account }
        ensures unchanged { OnErr result (self.new ≡ self.old) }
    {
        if came.place.line < self.first {
            self.names = copy(&came.item.names)?;
            self.first = came.place.line;
        }
        Ok(())
    }
}
