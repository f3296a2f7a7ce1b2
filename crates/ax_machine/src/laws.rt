//! Laws of the definitions, each the contract of a function that does nothing.
ghost use Rattle.std.specs.Prelude.{◌≡◌, ◌++◌, ℕ, List, Some, Ok, Err};
ghost use Rattle.std.specs.List.{AllByRecursion};
ghost use Rattle.ax_container.specs.Container.{Container, IsSound};
ghost use Rattle.ax_lines.specs.declared.body.Body.{Body};
ghost use Rattle.ax_lines.specs.declared.line.Line.TheVariants as line_form;
ghost use Rattle.ax_lines.specs.declared.refusal.Refusal.TheVariants as refusal;
ghost use Rattle.ax_lines.specs.Lines.{line_of};
ghost use Rattle.ax_mean.specs.declared.query.Query.{Query};
ghost use Rattle.ax_policy.specs.Ordering.{Orderable};
ghost use Rattle.ax_machine.specs.Querying.{rows_of, rows_or_refusal};
ghost use Rattle.ax_machine.specs.Step.{step};
ghost use Rattle.ax_machine.specs.Run.{Exchange, Served, lines_of, after, texts, text_of};

/// Any lines have a run in which each of them is served: from no container is a script stuck.
pub fn there_is_a_run()
    ensures { (lines : List (List ℕ)) → (run : List Exchange) × (lines_of run ≡ lines)
        × AllByRecursion (λ exchange. exchange.outcome ≡ Served) run }
{}

/// A run and then another is the run of both: it goes on from the container that the first leaves.
pub fn runs_join()
    ensures lines { (run more : List Exchange)
        → lines_of (run ++ more) ≡ lines_of run ++ lines_of more }
    ensures after { (before : Container) (run more : List Exchange)
        → after before (run ++ more) ≡ after (after before run) more }
    ensures texts { (before : Container) (run more : List Exchange)
        → texts before (run ++ more) ≡ texts before run ++ texts (after before run) more }
    ensures text { (before : Container) (run more : List Exchange)
        → text_of before (run ++ more) ≡ text_of before run ++ text_of (after before run) more }
{}

/// A step keeps what holds of every container.
pub fn a_step_keeps_soundness()
    ensures { (before : Container) (line : List ℕ) → IsSound before → IsSound (step before line).0 }
{}

/// So does a run, however its lines are answered.
pub fn a_run_keeps_soundness()
    ensures { (before : Container) (run : List Exchange) → IsSound before
        → IsSound (after before run) }
{}

/// A query and a read change nothing, whatever they are answered.
pub fn a_look_changes_nothing()
    ensures query { (before : Container) (line : List ℕ) (body : Body)
        → line_of line ≡ Ok (line_form.Query body) → (step before line).0 ≡ before }
    ensures read { (before : Container) (line id : List ℕ)
        → line_of line ≡ Ok (line_form.Read id) → (step before line).0 ≡ before }
{}

/// A query is answered by its rows where the policy now keeps an order for its ORDER BY, and refused by it where it
/// keeps none.
pub fn a_query_is_refused_by_its_order()
    ensures kept { (query : Query) (container : Container) → Orderable container.policy query.orders
        → rows_or_refusal (Some query) container ≡ Ok (rows_of query container) }
    ensures refused { (query : Query) (container : Container) → (Orderable container.policy query.orders → ⊥)
        → rows_or_refusal (Some query) container ≡ Err refusal.Order }
{}
