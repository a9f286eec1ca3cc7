// The calls of a turn.
ghost use Rattle.std.specs.Prelude.{◌≡◌, Bool, true, false, [], IfOk, IfErr};
ghost use Rattle.book_history.specs.Owned.{IsPrefix};
ghost use Rattle.book_turn.specs.Known.{begun, entered, left, after_split, worker_of, joined};
ghost use Rattle.book_turn.specs.Rule.{EachBegins, Learned, MayLeave};
ghost use Rattle.book_turn.specs.Passes.{IsOf, known};
ghost use Rattle.book_turn.specs.Turns.{GoesOn};

use crate::begins::Begins;
use crate::enters::Enters;
use crate::hears::Hears;
use crate::holder::{Holder, SessionPass, WorkerPass};
use crate::leaves::Leaves;
use crate::one_book::OneBook;
use crate::sight::Sight;
use crate::turn::Turn;
use crate::waiting::Waiting;
use crate::workers::Workers;
use book_history::historied::Historied;
use crossbeam_queue::RuledArrayQueue;
use ls_text::NoMemory;
use std::alloc::Global;
use std::sync::Wait;

impl<B: Historied> Turn<B> {
    /// The book is in its turn.
    pub fn make<R: Wait>(
        rt: &R,
        alloc: Global,
        book: Box<B>,
    ) -> Result<(Turn<B>, SessionPass<B>), NoMemory>
        ensures { IfOk result (λ t. IsOf t.0 t.1 true × (known t.1 ≡ begun (B.history book.value))) }
    {
        let (queue, mut seat) = RuledArrayQueue::<Box<B>, Sight<B>, OneBook<B>>::ruled(alloc, 1)?;
        match queue.push_as::<Begins, R>(rt, &mut seat, book) {
            Ok(()) => Ok((Turn { queue }, Holder { seat })),
            Err(_) => unreachable!(),
        }
    }

    /// A worker's pass, which knows what the session's does.
    pub fn worker_pass(&self, pass: &mut SessionPass<B>) -> Result<WorkerPass<B>, NoMemory>
        requires { IsOf self.now pass.old true }
        ensures session { IsOf self.now pass.new true }
        ensures old { IfErr result (λ _. known pass.new ≡ known pass.old) }
        ensures known { IfOk result (λ w. IsOf self.now w false × (known w ≡ worker_of (known pass.old)) × (known pass.new ≡ after_split (known pass.old))) }
    {
        let seat = self.queue.another::<Workers>(&mut pass.seat);
        Ok(Holder { seat })
    }

    /// Waits for the book: tries again at once, then whenever it gets a processor, and after a while every millisecond.
    #[tactic(auto, using(crate::proofs::Turns::goes_in))]
    pub fn enter<R: Wait, const SESSION: bool>(
        &self,
        rt: &R,
        pass: &mut Holder<B, SESSION>,
    ) -> Box<B>
        requires turn { IsOf self.now pass.old SESSION }
        requires outside { (known pass.old).holds ≡ false }
        ensures turn { IsOf self.now pass.new SESSION }
        ensures known { known pass.new ≡ entered (known pass.old) (B.history result.value) }
        ensures learned { Learned (known pass.old) (B.history result.value) }
        ensures goes { GoesOn (known pass.old) (known pass.new) }
    {
        let mut waiting = Waiting::new();
        for _ in rt.forever() {
            if let Some(book) = self.queue.try_pop_as::<Enters>(&mut pass.seat) {
                return book;
            }
            waiting.rest(rt);
        }
        unreachable!()
    }

    /// Puts the book back.
    #[tactic(auto, using(crate::proofs::Turns::goes_out))]
    pub fn leave<R: Wait, const SESSION: bool>(
        &self,
        rt: &R,
        pass: &mut Holder<B, SESSION>,
        book: Box<B>,
    )
        requires turn { IsOf self.now pass.old SESSION }
        requires may { MayLeave (known pass.old) (B.history book.value) }
        ensures turn { IsOf self.now pass.new SESSION }
        ensures known { known pass.new ≡ left (known pass.old) (B.history book.value) }
        ensures goes { GoesOn (known pass.old) (known pass.new) }
    {
        self.put(rt, pass, book);
    }

    /// The book is in the queue, which has a place for it since the holder has the book.
    fn put<R: Wait, const SESSION: bool>(&self, rt: &R, pass: &mut Holder<B, SESSION>, book: Box<B>)
        requires turn { IsOf self.now pass.old SESSION }
        requires may { MayLeave (known pass.old) (B.history book.value) }
        ensures turn { IsOf self.now pass.new SESSION }
        ensures known { known pass.new ≡ left (known pass.old) (B.history book.value) }
    {
        match self.queue.push_as::<Leaves, R>(rt, &mut pass.seat, book) {
            Ok(()) => {}
            Err(_) => unreachable!(),
        }
    }

    /// Takes in what a worker has seen.
    pub fn join(&self, pass: &mut SessionPass<B>, worker: WorkerPass<B>)
        requires session { IsOf self.now pass.old true }
        requires worker { IsOf self.now worker false }
        requires outside { (known worker).holds ≡ false }
        requires no_ticket { (known worker).tickets ≡ [] }
        ensures turn { IsOf self.now pass.new true }
        ensures known { known pass.new ≡ joined (known pass.old) (known worker) }
        ensures seen { IsPrefix (known pass.old).seen (known pass.new).seen }
        ensures heard { IsPrefix (known worker).seen (known pass.new).seen }
    {
        self.absorb(pass, worker);
        self.compare(pass);
    }

    /// The worker's pass is spent.
    fn absorb(&self, pass: &mut SessionPass<B>, worker: WorkerPass<B>)
        requires session { IsOf self.now pass.old true }
        requires worker { IsOf self.now worker false }
        requires outside { (known worker).holds ≡ false }
        ensures turn { IsOf self.now pass.new true }
        ensures known { known pass.new ≡ joined (known pass.old) (known worker) }
    {
        self.queue.absorb::<Workers>(&mut pass.seat, worker.seat);
    }

    /// What was seen at the last join are beginnings of what is seen now.
    fn compare(&self, pass: &mut SessionPass<B>)
        requires turn { IsOf self.now pass.old true }
        ensures turn { IsOf self.now pass.new true }
        ensures known { known pass.new ≡ known pass.old }
        ensures begins { EachBegins (known pass.old).heard (known pass.old).seen }
    {
        self.queue.learn_as::<Hears>(&mut pass.seat);
    }

    /// Waits for the book. After it nobody has the turn.
    pub fn finish<R: Wait>(self, rt: &R, mut pass: SessionPass<B>) -> Box<B>
        requires turn { IsOf self pass true }
        requires outside { (known pass).holds ≡ false }
        ensures learned { Learned (known pass) (B.history result.value) }
        ensures alone { (known pass).alone ≡ true → (B.history result.value).events ≡ (known pass).seen }
    {
        self.enter(rt, &mut pass)
    }
}
